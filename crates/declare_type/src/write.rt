// The tokens, written into a buffer from a place on, where there is room. Each gives the place behind what it wrote.
ghost use Rattle.std.specs.Prelude.{◌≡◌, ◌≤◌, ◌∷◌, [], ◌++◌, eqb, length, take, drop};
ghost use Rattle.field_put.specs.Bytes.{Room, Puts};
ghost use Rattle.declare_spelling.specs.Spellings.{quoted, kind_text, indirection_text, mode_text, quals_text};
ghost use Rattle.declare_type.specs.Tokens.{decimal, extent_text, closing, spaced, space_before, quals_in, space, text_of};
ghost use Rattle.declare_type.specs.Lengths.{ending};

use crate::count;
use crate::token::Token;
use declare_spelling::{Quals, Spelling};
use word_primitive::{Indirection, PrimitiveKind};

fn text(out: &mut [u8], at: usize, b: &[u8]) -> usize
    requires { Room out.old at b.now }
    ensures { Puts out.old at b.now result out.new }
{
    field_put::put_all(out, at, b)
}

fn spelling(out: &mut [u8], at: usize, w: Spelling) -> usize
    requires { Room out.old at (take w.n w.bytes) × (w.n ≤ 40) × (length w.bytes ≡ 40) }
    ensures { Puts out.old at (take w.n w.bytes) result out.new }
{
    let b = w.bytes;
    let n = w.n;
    text(out, at, &b[0..n])
}

fn kind(out: &mut [u8], at: usize, k: PrimitiveKind) -> usize
    requires { Room out.old at (kind_text k) }
    ensures { Puts out.old at (kind_text k) result out.new }
{
    spelling(out, at, declare_spelling::kind::spelled(k))
}

fn indirection(out: &mut [u8], at: usize, y: Indirection) -> usize
    requires { Room out.old at (indirection_text y) }
    ensures { Puts out.old at (indirection_text y) result out.new }
{
    spelling(out, at, declare_spelling::indirection(y))
}

fn mode(out: &mut [u8], at: usize, m: u8) -> usize
    requires { Room out.old at (mode_text m) }
    ensures { Puts out.old at (mode_text m) result out.new }
{
    spelling(out, at, declare_spelling::mode(m))
}

fn quals(out: &mut [u8], at: usize, q: Quals) -> usize
    requires { Room out.old at (quals_text q) }
    ensures { Puts out.old at (quals_text q) result out.new }
{
    spelling(out, at, declare_spelling::qualifiers(q))
}

fn byte(out: &mut [u8], at: usize, b: u8) -> usize
    requires { Room out.old at (b ∷ []) }
    ensures { Puts out.old at (b ∷ []) result out.new }
{
    out[at] = b;
    at + 1
}

// The space behind qualifiers that stand from a place on, unless they are the last or there are none.
fn end_quals(out: &mut [u8], from: usize, at: usize, last: bool) -> usize
    requires { Room out.old at (ending last (eqb at from)) }
    ensures { Puts out.old at (ending last (eqb at from)) result out.new }
{
    if last {
        return at;
    }
    if at == from {
        return at;
    }
    byte(out, at, b' ')
}

fn quals_in(out: &mut [u8], at: usize, q: Quals, last: bool) -> usize
    requires { Room out.old at (quals_in last (quals_text q)) }
    ensures { Puts out.old at (quals_in last (quals_text q)) result out.new }
{
    let e = quals(out, at, q);
    end_quals(out, at, e, last)
}

// The space behind a base.
fn space(out: &mut [u8], at: usize, bare: bool) -> usize
    requires { Room out.old at (space bare) }
    ensures { Puts out.old at (space bare) result out.new }
{
    if bare {
        return at;
    }
    byte(out, at, b' ')
}

// The qualifiers behind the ) of arguments.
fn behind(out: &mut [u8], at: usize, q: Quals) -> usize
    requires { Room out.old at (space_before (quals_text q)) }
    ensures { Puts out.old at (space_before (quals_text q)) result out.new }
{
    let n = count::quals_len(q);
    if n == 0 {
        return at;
    }
    let e = byte(out, at, b' ');
    quals(out, e, q)
}

// As much of a name as is there.
fn name(s: &[u8], p: usize, n: usize, out: &mut [u8], at: usize) -> usize
    requires { Room out.old at (take n (drop p s.now)) }
    ensures { Puts out.old at (take n (drop p s.now)) result out.new }
{
    let all = s.len();
    if all < p {
        return at;
    }
    if all - p < n {
        return text(out, at, &s[p..all]);
    }
    let e = p + n;
    text(out, at, &s[p..e])
}

// At most k digits.
fn decimal(out: &mut [u8], at: usize, k: u32, n: u64) -> usize
    requires { Room out.old at (decimal k n) }
    ensures { Puts out.old at (decimal k n) result out.new }
{
    if k == 0 {
        return at;
    }
    if n < 10 {
        return byte(out, at, 48 + (n as u8));
    }
    let e = decimal(out, at, k - 1, n / 10);
    byte(out, e, 48 + ((n % 10) as u8))
}

fn extent(out: &mut [u8], at: usize, e: Option<u64>) -> usize
    requires { Room out.old at (extent_text e) }
    ensures { Puts out.old at (extent_text e) result out.new }
{
    match e {
        Some(n) => {
            return decimal(out, at, 20, n);
        }
        None => {
            return at;
        }
    }
}

fn closed(out: &mut [u8], at: usize, c: bool) -> usize
    requires { Room out.old at (closing c) }
    ensures { Puts out.old at (closing c) result out.new }
{
    if c {
        return byte(out, at, b')');
    }
    at
}

fn pointer(out: &mut [u8], at: usize, m: u8, q: Quals, last: bool) -> usize
    requires { Room out.old at (mode_text m ++ quals_in last (quals_text q)) }
    ensures { Puts out.old at (mode_text m ++ quals_in last (quals_text q)) result out.new }
{
    let e = mode(out, at, m);
    quals_in(out, e, q, last)
}

fn primitive(out: &mut [u8], at: usize, k: PrimitiveKind, q: Quals, bare: bool) -> usize
    requires { Room out.old at (spaced (quals_text q) ++ kind_text k ++ space bare) }
    ensures { Puts out.old at (spaced (quals_text q) ++ kind_text k ++ space bare) result out.new }
{
    let e = quals_in(out, at, q, false);
    let f = kind(out, e, k);
    space(out, f, bare)
}

fn pointed(
    out: &mut [u8],
    at: usize,
    k: PrimitiveKind,
    y: Indirection,
    q: Quals,
    last: bool,
) -> usize
    requires { Room out.old at (kind_text k ++ quoted " " ++ indirection_text y ++ quals_in last (quals_text q)) }
    ensures { Puts out.old at (kind_text k ++ quoted " " ++ indirection_text y ++ quals_in last (quals_text q)) result out.new }
{
    let e = kind(out, at, k);
    let f = byte(out, e, b' ');
    let g = indirection(out, f, y);
    quals_in(out, g, q, last)
}

fn tag(s: &[u8], p: usize, n: usize, out: &mut [u8], at: usize, q: Quals, bare: bool) -> usize
    requires { Room out.old at (spaced (quals_text q) ++ take n (drop p s.now) ++ space bare) }
    ensures { Puts out.old at (spaced (quals_text q) ++ take n (drop p s.now) ++ space bare) result out.new }
{
    let e = quals_in(out, at, q, false);
    let f = name(s, p, n, out, e);
    space(out, f, bare)
}

fn brackets(out: &mut [u8], at: usize, c: bool, x: Option<u64>) -> usize
    requires { Room out.old at (closing c ++ quoted "[" ++ extent_text x ++ quoted "]") }
    ensures { Puts out.old at (closing c ++ quoted "[" ++ extent_text x ++ quoted "]") result out.new }
{
    let e = closed(out, at, c);
    let f = byte(out, e, b'[');
    let g = extent(out, f, x);
    byte(out, g, b']')
}

fn begin(out: &mut [u8], at: usize, c: bool) -> usize
    requires { Room out.old at (closing c ++ quoted "(") }
    ensures { Puts out.old at (closing c ++ quoted "(") result out.new }
{
    let e = closed(out, at, c);
    byte(out, e, b'(')
}

fn end(out: &mut [u8], at: usize, q: Quals) -> usize
    requires { Room out.old at (quoted ")" ++ space_before (quals_text q)) }
    ensures { Puts out.old at (quoted ")" ++ space_before (quals_text q)) result out.new }
{
    let e = byte(out, at, b')');
    behind(out, e, q)
}

// A token from a place on.
pub fn put_token(s: &[u8], p: Token, out: &mut [u8], at: usize) -> usize
    requires { Room out.old at (text_of s.now p) }
    ensures { Puts out.old at (text_of s.now p) result out.new }
{
    match p {
        Token::Nothing => {
            return at;
        }
        Token::Open => {
            return byte(out, at, b'(');
        }
        Token::Pointer(m, q, b) => {
            return pointer(out, at, m, q, b);
        }
        Token::Primitive(k, q, b) => {
            return primitive(out, at, k, q, b);
        }
        Token::Pointed(k, y, q, b) => {
            return pointed(out, at, k, y, q, b);
        }
        Token::Tag(a, n, q, b) => {
            return tag(s, a, n, out, at, q, b);
        }
        Token::Length(c, x) => {
            return brackets(out, at, c, x);
        }
        Token::Begin(c) => {
            return begin(out, at, c);
        }
        Token::Comma => {
            return text(out, at, b", ");
        }
        Token::Void => {
            return text(out, at, b"void");
        }
        Token::End(q) => {
            return end(out, at, q);
        }
    }
}
