// The trailer of a places file, behind its places: 28 bytes with the count in two, R-3 of document 02, or 30 with the count in four, R-10.
ghost use Rattle.std.specs.Prelude.{◌≡◌, ◌+◌, ◌≤◌, length};
ghost use Rattle.field.specs.Fields.{little_at};
ghost use Rattle.stream_places.specs.File.{file_form_in, trailer_size, spells, trailer_at, trailer_by, trailer_of, trailer_of_either};
ghost use Rattle.answer.specs.Refusals.{itself, said};

use crate::{Width, byte_at, half_at, least_of, letters_of, width_of, word_at};
use answer::Refusal;

// What a places file says of itself: how many places it has and the shift of the finder that they are of; of the stream that it was made for,
// the bounds of its indices, its length and its header's size; and how far back from the file's end the first place stands.
#[derive(Clone, Copy)]
pub struct Trailer {
    pub count: u32,
    pub shift: u8,
    pub minimum_index: u32,
    pub maximum_index: u32,
    pub stream_length: u32,
    pub header_size: u32,
    pub distance: u32,
}

impl Trailer {
    // The trailer of a places file of R-3's form: its letters first, then that all of it fits this file's length. How many places to lend a table
    // for, for example, is its count.
    pub fn parse(f: &[u8]) -> Result<Trailer, Refusal>
        ensures { said itself result ≡ trailer_of f.now }
    {
        parsed(f, Width::Narrow)
    }

    // The same of either form: the last four letters say which it is.
    pub fn parse_wide(f: &[u8]) -> Result<Trailer, Refusal>
        ensures { said itself result ≡ trailer_of_either f.now }
    {
        if f.len() < 4 {
            return parsed(f, Width::Narrow);
        }
        if spelt(f, f.len() - 4, b"PTIY") {
            return parsed(f, Width::Wide);
        }
        parsed(f, Width::Narrow)
    }
}

// The trailer of a file of this form.
fn parsed(f: &[u8], w: Width) -> Result<Trailer, Refusal>
    ensures { said itself result ≡ trailer_by (file_form_in w) f.now }
{
    let width = width_of(w);
    let size = width + 26;
    if f.len() < size {
        return Err(Refusal::FileWrong);
    }
    let letters = letters_of(w);
    if !spelt(f, f.len() - 4, &letters) {
        return Err(Refusal::FileWrong);
    }
    let p = f.len() - size;
    if byte_at(f, p + width + 1) != 0 {
        return Err(Refusal::FileWrong);
    }
    let r = trailer_at(f, p, w);
    if r.shift > 6 {
        return Err(Refusal::FileWrong);
    }
    if r.distance as usize != f.len() {
        return Err(Refusal::FileWrong);
    }
    if f.len() != 4 * (r.count as usize) + size {
        return Err(Refusal::FileWrong);
    }
    if r.count < least_of(w) {
        return Err(Refusal::FileWrong);
    }
    Ok(r)
}

// Whether these letters stand at place p.
fn spelt(f: &[u8], p: usize, text: &[u8]) -> bool
    requires { p + length text.now ≤ length f.now }
    ensures { result ≡ spells f.now p text.now }
{
    let mut i: usize = 0;
    while i < text.len() {
        if f[p + i] != text[i] {
            return false;
        }
        i += 1;
    }
    true
}

// The count of the trailer that stands at place p.
fn count_at(f: &[u8], p: usize, w: Width) -> u32
    requires { p + (file_form_in w).width ≤ length f.now }
    ensures { result ≡ little_at (file_form_in w).width f.now p }
{
    match w {
        Width::Narrow => half_at(f, p) as u32,
        Width::Wide => word_at(f, p),
    }
}

// The fields of the trailer that stands at place p.
fn trailer_at(f: &[u8], p: usize, w: Width) -> Trailer
    requires { p + trailer_size (file_form_in w) ≤ length f.now }
    ensures { result ≡ trailer_at (file_form_in w) f.now p }
{
    let count = count_at(f, p, w);
    let q = p + width_of(w);
    let shift = byte_at(f, q);
    let minimum_index = word_at(f, q + 2);
    let maximum_index = word_at(f, q + 6);
    let stream_length = word_at(f, q + 10);
    let header_size = word_at(f, q + 14);
    let distance = word_at(f, q + 18);
    Trailer {
        count,
        shift,
        minimum_index,
        maximum_index,
        stream_length,
        header_size,
        distance,
    }
}
