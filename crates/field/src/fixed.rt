// Fields of a fixed width at a place of a slice of bytes, little-endian.
ghost use Rattle.std.specs.Prelude.{◌≡◌};
ghost use Rattle.field.specs.Fields.{fixed_at};
ghost use Rattle.answer.specs.Refusals.{itself, said_read};

use answer::Refusal;

// The field of k bytes at place p, and the place after it. The bytes are read in one load.

pub fn u8_at(s: &[u8], p: usize) -> Result<(u8, usize), Refusal>
    ensures { said_read itself result ≡ fixed_at 1 s.now p }
{
    if s.len() < p || s.len() - p < 1 {
        return Err(Refusal::Ended);
    }
    Ok((s[p], p + 1))
}

pub fn u16_at(s: &[u8], p: usize) -> Result<(u16, usize), Refusal>
    ensures { said_read itself result ≡ fixed_at 2 s.now p }
{
    if s.len() < p || s.len() - p < 2 {
        return Err(Refusal::Ended);
    }
    Ok((u16::from_le_bytes([s[p], s[p + 1]]), p + 2))
}

pub fn u32_at(s: &[u8], p: usize) -> Result<(u32, usize), Refusal>
    ensures { said_read itself result ≡ fixed_at 4 s.now p }
{
    if s.len() < p || s.len() - p < 4 {
        return Err(Refusal::Ended);
    }
    Ok((
        u32::from_le_bytes([s[p], s[p + 1], s[p + 2], s[p + 3]]),
        p + 4,
    ))
}

pub fn u64_at(s: &[u8], p: usize) -> Result<(u64, usize), Refusal>
    ensures { said_read itself result ≡ fixed_at 8 s.now p }
{
    if s.len() < p || s.len() - p < 8 {
        return Err(Refusal::Ended);
    }
    Ok((
        u64::from_le_bytes([
            s[p],
            s[p + 1],
            s[p + 2],
            s[p + 3],
            s[p + 4],
            s[p + 5],
            s[p + 6],
            s[p + 7],
        ]),
        p + 8,
    ))
}
