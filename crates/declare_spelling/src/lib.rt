// The house spellings of R-5 of document 02, each a table: indirections, modes of pointers, qualifiers; those of the kinds are in kind.rt.
// Beside them `Quals`, the qualifiers that a declaration is spelled from, for which no lookup is needed.
// specs/Spellings.antt has all of them as definitions, specs/Spelled.antt how a text stands in its 40 bytes.
#![tactic(auto, using(crate::proofs::Used::laws), unfolding(crate::specs::Spelled::spaces, crate::specs::Spellings::indirection_text, crate::specs::Spellings::kind_text, crate::specs::Spellings::mode_text, crate::specs::Spellings::words_of))]

pub mod kind;

ghost use Rattle.declare_spelling.specs.Spellings.{indirection_text, mode_text, quals_text};
ghost use Rattle.declare_spelling.specs.Spelled.{Spells};

use word_primitive::Indirection;

// Qualifiers: of a pointer by its attribute word, of another type by its modifier.
#[derive(Clone, Copy)]
pub struct Quals {
    pub constant: bool,
    pub volatile: bool,
    pub unaligned: bool,
    pub restrict: bool,
}

// A short text: the first n bytes, and spaces behind them.
#[derive(Clone, Copy)]
pub struct Spelling {
    pub bytes: [u8; 40],
    pub n: usize,
}

// An indirection, as it stands before what the primitive declares.
pub fn indirection(y: Indirection) -> Spelling
    ensures { Spells result (indirection_text y) }
{
    match y {
        Indirection::Direct => {
            return Spelling {
                bytes: *b"                                        ",
                n: 0,
            };
        }
        Indirection::Near16 => {
            return Spelling {
                bytes: *b"__near *                                ",
                n: 8,
            };
        }
        Indirection::Far16 => {
            return Spelling {
                bytes: *b"__far *                                 ",
                n: 7,
            };
        }
        Indirection::Huge16 => {
            return Spelling {
                bytes: *b"__huge *                                ",
                n: 8,
            };
        }
        Indirection::Near32 => {
            return Spelling {
                bytes: *b"*                                       ",
                n: 1,
            };
        }
        Indirection::Far32 => {
            return Spelling {
                bytes: *b"__far32 *                               ",
                n: 9,
            };
        }
        Indirection::Near64 => {
            return Spelling {
                bytes: *b"*                                       ",
                n: 1,
            };
        }
        Indirection::Near128 => {
            return Spelling {
                bytes: *b"__ptr128 *                              ",
                n: 10,
            };
        }
    }
}

// A mode of a pointer word.
pub fn mode(m: u8) -> Spelling
    ensures { Spells result (mode_text m) }
{
    match m {
        0 => {
            return Spelling {
                bytes: *b"*                                       ",
                n: 1,
            };
        }
        1 => {
            return Spelling {
                bytes: *b"&                                       ",
                n: 1,
            };
        }
        2 => {
            return Spelling {
                bytes: *b"::*                                     ",
                n: 3,
            };
        }
        3 => {
            return Spelling {
                bytes: *b"::*                                     ",
                n: 3,
            };
        }
        _ => {
            return Spelling {
                bytes: *b"&&                                      ",
                n: 2,
            };
        }
    }
}

// Qualifiers, in their order.
pub fn qualifiers(q: Quals) -> Spelling
    ensures { Spells result (quals_text q) }
{
    let constant = q.constant;
    let volatile = q.volatile;
    let unaligned = q.unaligned;
    let restrict = q.restrict;
    if constant {
        if volatile {
            if unaligned {
                if restrict {
                    return Spelling {
                        bytes: *b"const volatile __unaligned __restrict   ",
                        n: 37,
                    };
                }
                return Spelling {
                    bytes: *b"const volatile __unaligned              ",
                    n: 26,
                };
            }
            if restrict {
                return Spelling {
                    bytes: *b"const volatile __restrict               ",
                    n: 25,
                };
            }
            return Spelling {
                bytes: *b"const volatile                          ",
                n: 14,
            };
        }
        if unaligned {
            if restrict {
                return Spelling {
                    bytes: *b"const __unaligned __restrict            ",
                    n: 28,
                };
            }
            return Spelling {
                bytes: *b"const __unaligned                       ",
                n: 17,
            };
        }
        if restrict {
            return Spelling {
                bytes: *b"const __restrict                        ",
                n: 16,
            };
        }
        return Spelling {
            bytes: *b"const                                   ",
            n: 5,
        };
    }
    if volatile {
        if unaligned {
            if restrict {
                return Spelling {
                    bytes: *b"volatile __unaligned __restrict         ",
                    n: 31,
                };
            }
            return Spelling {
                bytes: *b"volatile __unaligned                    ",
                n: 20,
            };
        }
        if restrict {
            return Spelling {
                bytes: *b"volatile __restrict                     ",
                n: 19,
            };
        }
        return Spelling {
            bytes: *b"volatile                                ",
            n: 8,
        };
    }
    if unaligned {
        if restrict {
            return Spelling {
                bytes: *b"__unaligned __restrict                  ",
                n: 22,
            };
        }
        return Spelling {
            bytes: *b"__unaligned                             ",
            n: 11,
        };
    }
    if restrict {
        return Spelling {
            bytes: *b"__restrict                              ",
            n: 10,
        };
    }
    return Spelling {
        bytes: *b"                                        ",
        n: 0,
    };
}
