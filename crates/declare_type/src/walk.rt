// The walk of a C declaration (R-5 of document 02), from the outside inward, measured in a room of bytes. specs/Walk.antt has the walk with no
// limit on room, and what a room makes of it.
ghost use Rattle.std.specs.Prelude.{◌≡◌};
ghost use Rattle.stream_finder.specs.Finder.{state};
ghost use Rattle.declare_type.specs.Nodes.{list_of};
ghost use Rattle.declare_type.specs.Steps.{around_first};
ghost use Rattle.declare_type.specs.Walk.{walk, over_arguments, capped};

use crate::step::{Around, Step};
use crate::{node, step, token};
use answer::Refusal;
use field::index::TypeIndex;
use stream_finder::ItemFinder;

// How many bytes the declaration of type i has left and right of what stands around it, with d types left to nest, in a room of bytes; or why
// it is refused, 19 as soon as the room is passed: a text that would be too long costs no more steps than the room and the depth allow.
#[cycle(measure_arguments_measure_declarator)]
pub fn measure_declarator(
    s: &[u8],
    f: ItemFinder,
    t: &[u32],
    i: TypeIndex,
    d: u32,
    a: Around,
    room: usize,
) -> Result<(usize, usize), Refusal>
    ensures { result ≡ capped room (walk s.now (state f t.now) d i.0 a) }
{
    if d == 0 {
        return Err(Refusal::TooDeep);
    }
    match step::step_of(s, f, t, i, a) {
        Step::Last(p) => {
            let n = token::len(s, p);
            if room < n {
                return Err(Refusal::NoRoom);
            }
            return Ok((n, 0));
        }
        Step::Inward(l, r, j, b) => {
            let x = token::len(s, l);
            if room < x {
                return Err(Refusal::NoRoom);
            }
            let y = token::len(s, r);
            if room - x < y {
                return Err(Refusal::NoRoom);
            }
            let (m, n) = measure_declarator(s, f, t, j, d - 1, b, room - x - y)?;
            let left = m + x;
            let right = y + n;
            return Ok((left, right));
        }
        Step::Call(l, r, e, g, j, b) => {
            let x = token::len(s, l);
            if room < x {
                return Err(Refusal::NoRoom);
            }
            let y = token::len(s, r);
            if room - x < y {
                return Err(Refusal::NoRoom);
            }
            let (u, v) = measure_arguments(s, f, t, g.0, d - 1, room - x - y)?;
            let w = u + v;
            let more = room - x - y - w;
            let z = token::len(s, e);
            if more < z {
                return Err(Refusal::NoRoom);
            }
            let (m, n) = measure_declarator(s, f, t, j, d - 1, b, more - z)?;
            let left = m + x;
            let right = y + (w + (z + n));
            return Ok((left, right));
        }
        Step::Refused(why) => {
            return Err(why);
        }
    }
}

// The arguments of list g, from left to right.
#[cycle(measure_arguments_measure_declarator)]
fn measure_arguments(
    s: &[u8],
    f: ItemFinder,
    t: &[u32],
    g: u32,
    d: u32,
    room: usize,
) -> Result<(usize, usize), Refusal>
    ensures { result ≡ capped room (over_arguments (λ j. walk s.now (state f t.now) d j around_first) s.now (list_of s.now (state f t.now) g)) }
{
    let (p, n) = node::list_of(s, f, t, TypeIndex(g))?;
    if n == 0 {
        if room < 4 {
            return Err(Refusal::NoRoom);
        }
        return Ok((0, 4));
    }
    let first = node::index_at(s, p);
    let around = step::start();
    let (u, v) = measure_declarator(s, f, t, first, d, around, room)?;
    let mut fixed = u + v;
    let mut at = p + 4;
    let mut left = n - 1;
    while left > 0 {
        let more = room - fixed;
        if more < 2 {
            return Err(Refusal::NoRoom);
        }
        let next = node::index_at(s, at);
        let bare = step::start();
        let (x, y) = measure_declarator(s, f, t, next, d, bare, more - 2)?;
        fixed = fixed + (2 + (x + y));
        at = at + 4;
        left = left - 1;
    }
    return Ok((0, fixed));
}
