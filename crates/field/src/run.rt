// Some bytes at a place of a slice: the place after them, and the bytes themselves.
ghost use Rattle.std.specs.Prelude.{◌≡◌};
ghost use Rattle.field.specs.Runs.{bytes_after, bytes_at};
ghost use Rattle.answer.specs.Refusals.{itself, said};

use answer::Refusal;

// The place after the n bytes at place p.
pub fn after_bytes(s: &[u8], p: usize, n: usize) -> Result<usize, Refusal>
    ensures { said itself result ≡ bytes_after n s.now p }
{
    if s.len() < p {
        return Err(Refusal::Ended);
    }
    if s.len() - p < n {
        return Err(Refusal::Ended);
    }
    Ok(p + n)
}

// The n bytes at place p; none where they pass the end.
pub fn bytes_at<'a>(s: &'a [u8], p: usize, n: usize) -> &'a [u8]
    ensures { result.now ≡ bytes_at n s.now p }
{
    if p > s.len() {
        return &s[0..0];
    }
    if n > s.len() - p {
        return &s[0..0];
    }
    let end = p + n;
    &s[p..end]
}
