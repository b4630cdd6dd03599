// What a type adds to the C declaration that is built around it (R-5 of document 02), and where the walk goes on: a line of specs/Steps.antt for
// each kind of type.
ghost use Rattle.std.specs.Prelude.{◌≡◌};
ghost use Rattle.stream_finder.specs.Finder.{state};
ghost use Rattle.declare_type.specs.Steps.{or, none, union, around_first, opening, primitive_token, inward_step};

use crate::node;
use crate::node::Node;
use crate::token::Token;
use answer::Refusal;
use declare_spelling::Quals;
use field::index::TypeIndex;
use stream_finder::ItemFinder;
use word_primitive::{Indirection, PrimitiveKind};

// What stands around a type: qualifiers that wait, whether a pointer stands directly outside, whether nothing stands left yet, and whether
// nothing is fixed yet on either side.
#[derive(Clone, Copy)]
pub struct Around {
    pub quals: Quals,
    pub under: bool,
    pub last: bool,
    pub bare: bool,
}

// What a type adds, and where the walk goes on.
#[derive(Clone, Copy)]
pub enum Step {
    // A last token on the left.
    Last(Token),
    // A token on the left, one on the right, the type inward, and what stands around that.
    Inward(Token, Token, TypeIndex, Around),
    // The same with arguments before the type inward: the token before them, the token behind them, their list.
    Call(Token, Token, Token, TypeIndex, TypeIndex, Around),
    Refused(Refusal),
}

fn either(a: bool, b: bool) -> bool
    ensures { result ≡ or a b }
{
    if a {
        return true;
    }
    b
}

fn no_quals() -> Quals
    ensures { result ≡ none }
{
    Quals {
        constant: false,
        volatile: false,
        unaligned: false,
        restrict: false,
    }
}

fn union_of(a: Quals, b: Quals) -> Quals
    ensures { result ≡ union a b }
{
    Quals {
        constant: either(a.constant, b.constant),
        volatile: either(a.volatile, b.volatile),
        unaligned: either(a.unaligned, b.unaligned),
        restrict: either(a.restrict, b.restrict),
    }
}

// Around the first type, and around each argument: nothing.
pub fn start() -> Around
    ensures { result ≡ around_first }
{
    Around {
        quals: no_quals(),
        under: false,
        last: true,
        bare: true,
    }
}

fn open(under: bool) -> Token
    ensures { result ≡ opening under }
{
    if under {
        return Token::Open;
    }
    Token::Nothing
}

fn primitive_token(k: PrimitiveKind, y: Indirection, a: Around) -> Token
    ensures { result ≡ primitive_token k y a }
{
    let q = a.quals;
    let last = a.last;
    let bare = a.bare;
    match y {
        Indirection::Direct => {
            return Token::Primitive(k, q, bare);
        }
        Indirection::Near16 => {
            return Token::Pointed(k, y, q, last);
        }
        Indirection::Far16 => {
            return Token::Pointed(k, y, q, last);
        }
        Indirection::Huge16 => {
            return Token::Pointed(k, y, q, last);
        }
        Indirection::Near32 => {
            return Token::Pointed(k, y, q, last);
        }
        Indirection::Far32 => {
            return Token::Pointed(k, y, q, last);
        }
        Indirection::Near64 => {
            return Token::Pointed(k, y, q, last);
        }
        Indirection::Near128 => {
            return Token::Pointed(k, y, q, last);
        }
    }
}

// What type i adds.
pub fn step_of(s: &[u8], f: ItemFinder, t: &[u32], i: TypeIndex, a: Around) -> Step
    ensures { result ≡ inward_step s.now (state f t.now) i.0 a }
{
    let quals = a.quals;
    let under = a.under;
    let last = a.last;
    let bare = a.bare;
    match node::node_of(s, f, t, i) {
        Node::Primitive(k, y) => {
            let base = primitive_token(k, y, a);
            return Step::Last(base);
        }
        Node::Named(p, n) => {
            return Step::Last(Token::Tag(p, n, quals, bare));
        }
        Node::Pointer(j, m, own) => {
            let all = union_of(quals, own);
            let around = Around {
                quals: no_quals(),
                under: true,
                last: false,
                bare: false,
            };
            return Step::Inward(Token::Pointer(m, all, last), Token::Nothing, j, around);
        }
        Node::Modifier(j, own) => {
            let all = union_of(quals, own);
            let around = Around {
                quals: all,
                under,
                last,
                bare,
            };
            return Step::Inward(Token::Nothing, Token::Nothing, j, around);
        }
        Node::Array(j, e) => {
            let around = Around {
                quals,
                under: false,
                last,
                bare: false,
            };
            let left = open(under);
            return Step::Inward(left, Token::Length(under, e), j, around);
        }
        Node::Procedure(j, g) => {
            let around = Around {
                quals: no_quals(),
                under: false,
                last,
                bare: false,
            };
            let left = open(under);
            return Step::Call(left, Token::Begin(under), Token::End(quals), g, j, around);
        }
        Node::Refused(e) => {
            return Step::Refused(e);
        }
    }
}
