// A type as a C declaration (R-5 of document 02): the walk measures it in the room that the buffer has, and if nothing is refused it is written.
// `write_declarator` and `write_arguments` call each other, the depth left of 32 falling; `write_argument` stands between them.
#![tactic(auto)]

mod count;
mod node;
mod step;
mod token;
mod walk;
mod write;

ghost use Rattle.stream_finder.specs.Finder.{state};
ghost use Rattle.field_put.specs.Bytes.{Room, Puts};
ghost use Rattle.std.specs.Prelude.{length};
ghost use Rattle.declare_type.specs.Nodes.{list_of};
ghost use Rattle.declare_type.specs.Tokens.{text_of};
ghost use Rattle.declare_type.specs.Steps.{around_first};
ghost use Rattle.declare_type.specs.Walk.{walk, over_arguments, whole_text};
ghost use Rattle.declare_type.specs.Sides.{SideRoom, Both, WholeRoom};
ghost use Rattle.declare_type.specs.Declares.{declare_of, Declares};

use answer::Refusal;
use field::index::TypeIndex;
use step::{Around, Step};
use stream_finder::ItemFinder;
use stream_header::LONGEST;
use token::Token;

// How many types may be nested, the first counted and argument lists not.
const DEEPEST: u32 = 32;

// The declaration of type i of the stream s into the first bytes of a lent buffer; f is the stream's finder, t its table.
pub fn declare(
    s: &[u8],
    f: ItemFinder,
    t: &[u32],
    i: TypeIndex,
    out: &mut [u8],
) -> Result<usize, Refusal>
    ensures { Declares (declare_of s.now (state f t.now) i.0 (length out.old)) out.old result out.new }
{
    if s.len() > LONGEST {
        return Err(Refusal::TooLong);
    }
    let around = step::start();
    let (l, r) = walk::measure_declarator(s, f, t, i, DEEPEST, around, out.len())?;
    let n = l + r;
    write_declarator(s, f, t, i, DEEPEST, around, out, l, l);
    return Ok(n);
}

// A token from a place on, where there is room.
fn write_token(s: &[u8], p: Token, out: &mut [u8], at: usize) -> usize
    requires { Room out.old at (text_of s.now p) }
    ensures { Puts out.old at (text_of s.now p) result out.new }
{
    token::put(s, p, out, at)
}

// The declaration of type i, with d types left to nest, where it is known to have room: what goes left of what stands around it ends at one
// place, what goes right of it starts at another. It gives the place behind the right side.
#[cycle(write_argument_write_arguments_write_declarator)]
fn write_declarator(
    s: &[u8],
    f: ItemFinder,
    t: &[u32],
    i: TypeIndex,
    d: u32,
    a: Around,
    out: &mut [u8],
    left: usize,
    right: usize,
) -> usize
    requires { SideRoom (walk s.now (state f t.now) d i.0 a) left right out.old }
    ensures { Both (walk s.now (state f t.now) d i.0 a) out.old left right result out.new }
{
    if d == 0 {
        return right;
    }
    match step::step_of(s, f, t, i, a) {
        Step::Last(p) => {
            let n = token::len(s, p);
            let at = left - n;
            write_token(s, p, out, at);
            return right;
        }
        Step::Inward(l, r, j, b) => {
            let n = token::len(s, l);
            let at = left - n;
            write_token(s, l, out, at);
            let e = write_token(s, r, out, right);
            return write_declarator(s, f, t, j, d - 1, b, out, at, e);
        }
        Step::Call(l, r, z, g, j, b) => {
            let n = token::len(s, l);
            let at = left - n;
            write_token(s, l, out, at);
            let e = write_token(s, r, out, right);
            let k = write_arguments(s, f, t, g.0, d - 1, out, e);
            let c = write_token(s, z, out, k);
            return write_declarator(s, f, t, j, d - 1, b, out, at, c);
        }
        Step::Refused(_) => {
            return right;
        }
    }
}

// The arguments of list g from a place on.
#[cycle(write_argument_write_arguments_write_declarator)]
fn write_arguments(
    s: &[u8],
    f: ItemFinder,
    t: &[u32],
    g: u32,
    d: u32,
    out: &mut [u8],
    at: usize,
) -> usize
    requires { WholeRoom (over_arguments (λ j. walk s.now (state f t.now) d j around_first) s.now (list_of s.now (state f t.now) g)) at out.old }
    ensures { Puts out.old at (whole_text (over_arguments (λ j. walk s.now (state f t.now) d j around_first) s.now (list_of s.now (state f t.now) g))) result out.new }
{
    match node::list_of(s, f, t, TypeIndex(g)) {
        Ok((p, n)) => {
            if n == 0 {
                return write_token(s, Token::Void, out, at);
            }
            let first = node::index_at(s, p);
            let mut e = write_argument(s, f, t, first, d, out, at);
            let mut q = p + 4;
            let mut left = n - 1;
            while left > 0 {
                let k = write_token(s, Token::Comma, out, e);
                let next = node::index_at(s, q);
                e = write_argument(s, f, t, next, d, out, k);
                q = q + 4;
                left = left - 1;
            }
            return e;
        }
        Err(_) => {
            return at;
        }
    }
}

// An argument from a place on: it is measured again, to know where its two sides meet.
#[cycle(write_argument_write_arguments_write_declarator)]
fn write_argument(
    s: &[u8],
    f: ItemFinder,
    t: &[u32],
    i: TypeIndex,
    d: u32,
    out: &mut [u8],
    at: usize,
) -> usize
    requires { WholeRoom (walk s.now (state f t.now) d i.0 around_first) at out.old }
    ensures { Puts out.old at (whole_text (walk s.now (state f t.now) d i.0 around_first)) result out.new }
{
    let around = step::start();
    let room = out.len() - at;
    match walk::measure_declarator(s, f, t, i, d, around, room) {
        Ok((l, _)) => {
            let m = at + l;
            return write_declarator(s, f, t, i, d, around, out, m, m);
        }
        Err(_) => {
            return at;
        }
    }
}
