// Links and chains of them, which `next` and `find` go by. Not entries of document 01: whoever takes a stream tests its length (16) first.
ghost use Rattle.std.specs.Prelude.{◌≡◌, ◌≤◌, length};
ghost use Rattle.stream_item.specs.Links.{link_at, link_of};
ghost use Rattle.stream_item.specs.Led.{Led};

use crate::length_at;
use stream_header::LONGEST;

// The payload of the link that a walk came to; or how many links it passed before one broke.
#[derive(Clone, Copy)]
pub enum Hit {
    Landed(usize, usize),
    Missed(u32),
}

// The link at place p.
fn link_at(s: &[u8], p: usize) -> Option<(usize, usize)>
    ensures { result ≡ link_at s.now p }
{
    if p > s.len() {
        return None;
    }
    let left = s.len() - p;
    if left < 2 {
        return None;
    }
    let n = length_at(s, p);
    if n <= left - 2 {
        let place = p + 2;
        Some((place, n))
    } else {
        None
    }
}

// Link k of the chain that starts at place p: the walk with one test a link, and where anything is broken the one that counts.
pub fn link_of(s: &[u8], p: usize, k: u32) -> Hit
    ensures { result ≡ link_of s.now p k }
{
    if s.len() > LONGEST {
        return counted(s, p, k);
    }
    if p > 4294967295 {
        return counted(s, p, k);
    }
    let q = payload_of(s, p, k);
    if q > s.len() {
        return counted(s, p, k);
    }
    let n = length_at(s, q - 2);
    if q + n > s.len() {
        return counted(s, p, k);
    }
    Hit::Landed(q, n)
}

// Where the payload of link k starts; past the end, if a link before it is broken or its own length is not there.
fn payload_of(s: &[u8], p: usize, k: u32) -> usize
    requires { (length s.now ≤ 4294967294) × (p ≤ 4294967295) }
    ensures { Led s.now p k result }
{
    let mut q = p + 2;
    let mut i: u32 = 0;
    while i < k {
        if q > s.len() {
            return q;
        }
        q = q + 2 + length_at(s, q - 2);
        i = i + 1;
    }
    q
}

// The same, link by link.
fn counted(s: &[u8], p: usize, k: u32) -> Hit
    ensures { result ≡ link_of s.now p k }
{
    let mut at = p;
    let mut i: u32 = 0;
    while i < k {
        match link_at(s, at) {
            Some((place, n)) => {
                at = place + n;
                i = i + 1;
            }
            None => {
                return Hit::Missed(i);
            }
        }
    }
    match link_at(s, at) {
        Some((place, n)) => Hit::Landed(place, n),
        None => Hit::Missed(k),
    }
}
