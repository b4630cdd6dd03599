// What every export for C has in common: the result is a refusal's number, 0 for an answer, and behind `out` two details stand before the fields
// (specs/Handed.antt). Here are the two details, and what is yes or no.
#![tactic(auto)]

ghost use Rattle.std.specs.Prelude.{◌≡◌, get_or, length};
ghost use Rattle.answer.specs.Refusals.{details_of};
ghost use Rattle.pane_out.specs.Handed.{is_set, mark, refused_out};

use answer::{Details, Refusal};

// The first detail of a refusal, 0 where it has none.
pub fn first(e: Refusal) -> u64
    ensures { result ≡ get_or (details_of e) 0 0 }
{
    match e.details() {
        Details::None => 0,
        Details::One(a) => a as u64,
        Details::Two(a, _) => a as u64,
    }
}

// The second.
pub fn second(e: Refusal) -> u64
    ensures { result ≡ get_or (details_of e) 1 0 }
{
    match e.details() {
        Details::None => 0,
        Details::One(_) => 0,
        Details::Two(_, b) => b as u64,
    }
}

// What C gets of a refusal: its number, and behind `out` its two details, and zeros.
pub fn refused(e: Refusal, out: &mut [u64]) -> u32
    ensures { (result, out.new) ≡ refused_out (length out.old) e }
{
    out.fill(0);
    if out.len() > 0 {
        out[0] = first(e);
    }
    if out.len() > 1 {
        out[1] = second(e);
    }
    e.number()
}

// A yes or no that C gives: any number but 0 is a yes.
pub fn is_set(n: u32) -> bool
    ensures { result ≡ is_set n }
{
    n != 0
}

// And one that C gets.
pub fn flag(b: bool) -> u64
    ensures { result ≡ mark b }
{
    if b { 1 } else { 0 }
}
