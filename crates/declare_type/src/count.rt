// The lengths of the tokens.
ghost use Rattle.std.specs.Prelude.{◌≡◌, ◌+◌, ◌≤◌, ◌<◌, length, take, drop};
ghost use Rattle.declare_spelling.specs.Spellings.{kind_text, indirection_text, mode_text, quals_text};
ghost use Rattle.declare_type.specs.Tokens.{space, decimal, extent_text, closing, text_of};
ghost use Rattle.declare_type.specs.Lengths.{spaced_length, quals_length};

use crate::token::Token;
use declare_spelling::Quals;
use word_primitive::{Indirection, PrimitiveKind};

fn kind_len(k: PrimitiveKind) -> usize
    ensures { (result ≡ length (kind_text k)) × (result ≤ 40) }
{
    let w = declare_spelling::kind::spelled(k);
    w.n
}

fn indirection_len(y: Indirection) -> usize
    ensures { (result ≡ length (indirection_text y)) × (result ≤ 40) }
{
    let w = declare_spelling::indirection(y);
    w.n
}

fn mode_len(m: u8) -> usize
    ensures { (result ≡ length (mode_text m)) × (result ≤ 40) }
{
    let w = declare_spelling::mode(m);
    w.n
}

pub fn quals_len(q: Quals) -> usize
    ensures { (result ≡ length (quals_text q)) × (result ≤ 40) }
{
    let w = declare_spelling::qualifiers(q);
    w.n
}

fn spaced_len(n: usize) -> usize
    requires { n < 18446744073709551615 }
    ensures { (result ≡ spaced_length n) × (result ≤ n + 1) }
{
    if n == 0 {
        return 0;
    }
    n + 1
}

fn quals_in_len(last: bool, n: usize) -> usize
    requires { n < 18446744073709551615 }
    ensures { (result ≡ quals_length last n) × (result ≤ n + 1) }
{
    if last {
        return n;
    }
    spaced_len(n)
}

fn space_len(bare: bool) -> usize
    ensures { (result ≡ length (space bare)) × (result ≤ 1) }
{
    if bare {
        return 0;
    }
    1
}

// How many bytes of a name are there.
fn name_len(s: &[u8], p: usize, n: usize) -> usize
    ensures { (result ≡ length (take n (drop p s.now))) × (result ≤ length s.now) }
{
    if s.len() < p {
        return 0;
    }
    let rest = s.len() - p;
    if rest < n {
        return rest;
    }
    n
}

// How many of at most k digits a number has.
fn decimal_len(k: u32, n: u64) -> usize
    ensures { (result ≡ length (decimal k n)) × (result ≤ k) }
{
    if k == 0 {
        return 0;
    }
    if n < 10 {
        return 1;
    }
    decimal_len(k - 1, n / 10) + 1
}

fn extent_len(e: Option<u64>) -> usize
    ensures { (result ≡ length (extent_text e)) × (result ≤ 20) }
{
    match e {
        Some(n) => decimal_len(20, n),
        None => 0,
    }
}

fn closing_len(closes: bool) -> usize
    ensures { (result ≡ length (closing closes)) × (result ≤ 1) }
{
    if closes {
        return 1;
    }
    0
}

// How many bytes a token has.
pub fn token_len(s: &[u8], p: Token) -> usize
    ensures { result ≡ length (text_of s.now p) }
{
    match p {
        Token::Nothing => 0,
        Token::Open => 1,
        Token::Pointer(m, q, b) => mode_len(m) + quals_in_len(b, quals_len(q)),
        Token::Primitive(k, q, b) => spaced_len(quals_len(q)) + kind_len(k) + space_len(b),
        Token::Pointed(k, y, q, b) => kind_len(k)
            + 1
            + indirection_len(y)
            + quals_in_len(b, quals_len(q)),
        Token::Tag(a, n, q, b) => spaced_len(quals_len(q)) + name_len(s, a, n) + space_len(b),
        Token::Length(c, e) => closing_len(c) + 2 + extent_len(e),
        Token::Begin(c) => closing_len(c) + 1,
        Token::Comma => 2,
        Token::Void => 4,
        Token::End(q) => 1 + spaced_len(quals_len(q)),
    }
}
