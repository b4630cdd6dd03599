// The tokens of a C declaration (R-5 of document 02): how many bytes each has, and each written into a lent buffer.
// specs/Tokens.antt has the text of each token, declare_spelling the spellings.
ghost use Rattle.std.specs.Prelude.{◌≡◌, length};
ghost use Rattle.field_put.specs.Bytes.{Lays};
ghost use Rattle.declare_type.specs.Tokens.{text_of};

use crate::{count, write};
use declare_spelling::Quals;
use word_primitive::{Indirection, PrimitiveKind};

// A token of a declaration. `last` says that nothing stands left of what the token declares yet, `bare` that nothing is fixed at all.
#[derive(Clone, Copy)]
pub enum Token {
    Nothing,
    // The ( of a pointer to an array or a procedure; its ) stands in Length or Begin.
    Open,
    // The mode, the qualifiers, last.
    Pointer(u8, Quals, bool),
    // The kind, the qualifiers, bare.
    Primitive(PrimitiveKind, Quals, bool),
    // A primitive that is pointed to, the qualifiers of the pointer, last.
    Pointed(PrimitiveKind, Indirection, Quals, bool),
    // A tag name by place and length in the stream, the qualifiers, bare.
    Tag(usize, usize, Quals, bool),
    // An array's brackets, behind a ) if told.
    Length(bool, Option<u64>),
    // The ( of arguments, behind a ) if told.
    Begin(bool),
    // Before each argument but the first.
    Comma,
    // No arguments.
    Void,
    // The ) of arguments, and the qualifiers of the procedure.
    End(Quals),
}

// How many bytes a token has; s is the stream that has the names.
pub fn len(s: &[u8], p: Token) -> usize
    ensures { result ≡ length (text_of s.now p) }
{
    count::token_len(s, p)
}

// A token into a buffer from a place on: it gives the place behind it. Without room nothing is written, and the place is given back.
pub fn put(s: &[u8], p: Token, out: &mut [u8], at: usize) -> usize
    ensures { Lays out.old at (text_of s.now p) result out.new }
{
    let n = count::token_len(s, p);
    if out.len() < at {
        return at;
    }
    if out.len() - at < n {
        return at;
    }
    write::put_token(s, p, out, at)
}
