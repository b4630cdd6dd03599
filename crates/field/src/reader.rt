// A place in some bytes, at which fields are read one after the other: a field that is there moves it behind the field, and a refusal leaves it
// where it was. The place is any number: past the end every read answers 1, "ended".
ghost use Rattle.std.specs.Prelude.{◌≡◌, OnErr, option_map};
ghost use Rattle.answer.specs.Refusals.{itself, said_from, said_on};
ghost use Rattle.field.specs.Fields.{fixed_at};
ghost use Rattle.field.specs.Runs.{bytes_after};
ghost use Rattle.field.specs.Indices.{optional_at};

use crate::index::{Index, OptionalIndex};
use crate::{fixed, run};
use answer::Refusal;

#[derive(Clone, Copy)]
pub struct Reader<'a> {
    pub bytes: &'a [u8],
    pub at: usize,
}

impl<'a> Reader<'a> {
    pub fn u8(&mut self) -> Result<u8, Refusal>
        ensures value { said_from itself result self.new.at ≡ fixed_at 1 self.old.bytes.now self.old.at }
        ensures stays { OnErr result (self.new.at ≡ self.old.at) }
        ensures bytes { self.new.bytes ≡ self.old.bytes }
    {
        let (x, at) = fixed::u8_at(self.bytes, self.at)?;
        self.at = at;
        Ok(x)
    }

    pub fn u16(&mut self) -> Result<u16, Refusal>
        ensures value { said_from itself result self.new.at ≡ fixed_at 2 self.old.bytes.now self.old.at }
        ensures stays { OnErr result (self.new.at ≡ self.old.at) }
        ensures bytes { self.new.bytes ≡ self.old.bytes }
    {
        let (x, at) = fixed::u16_at(self.bytes, self.at)?;
        self.at = at;
        Ok(x)
    }

    pub fn u32(&mut self) -> Result<u32, Refusal>
        ensures value { said_from itself result self.new.at ≡ fixed_at 4 self.old.bytes.now self.old.at }
        ensures stays { OnErr result (self.new.at ≡ self.old.at) }
        ensures bytes { self.new.bytes ≡ self.old.bytes }
    {
        let (x, at) = fixed::u32_at(self.bytes, self.at)?;
        self.at = at;
        Ok(x)
    }

    // Over n bytes.
    pub fn skip(&mut self, n: usize) -> Result<(), Refusal>
        ensures place { said_on result self.new.at ≡ bytes_after n self.old.bytes.now self.old.at }
        ensures stays { OnErr result (self.new.at ≡ self.old.at) }
        ensures bytes { self.new.bytes ≡ self.old.bytes }
    {
        self.at = run::after_bytes(self.bytes, self.at, n)?;
        Ok(())
    }

    // An index, or a string reference.
    pub fn index<I: Index>(&mut self) -> Result<I, Refusal>
        ensures value { said_from I.counts result self.new.at ≡ fixed_at 4 self.old.bytes.now self.old.at }
        ensures stays { OnErr result (self.new.at ≡ self.old.at) }
        ensures bytes { self.new.bytes ≡ self.old.bytes }
    {
        let n = self.u32()?;
        Ok(I::from_number(n))
    }

    // An index that may be none.
    pub fn optional<I: OptionalIndex>(&mut self) -> Result<Option<I>, Refusal>
        ensures value { said_from (option_map I.counts) result self.new.at ≡ optional_at I.nones self.old.bytes.now self.old.at }
        ensures stays { OnErr result (self.new.at ≡ self.old.at) }
        ensures bytes { self.new.bytes ≡ self.old.bytes }
    {
        let i: I = self.index()?;
        Ok(i.or_none())
    }
}
