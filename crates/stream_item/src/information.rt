// What a stream's header says of its records: how many there are, by the indices that it gives them.
ghost use Rattle.std.specs.Prelude.{◌≡◌};
ghost use Rattle.stream_item.specs.Information.{len_of, is_empty_of};
ghost use Rattle.answer.specs.Refusals.{itself, said};

use answer::Refusal;
use stream_header::Header;

// The number of records.
pub fn len(s: &[u8]) -> Result<u32, Refusal>
    ensures { said itself result ≡ len_of s.now }
{
    let h = Header::parse(s)?;
    Ok(h.count())
}

// Whether there are none.
pub fn is_empty(s: &[u8]) -> Result<bool, Refusal>
    ensures { said itself result ≡ is_empty_of s.now }
{
    let h = Header::parse(s)?;
    Ok(h.count() == 0)
}
