// Numbers of 1, 2 and 4 bytes, little-endian, and bytes of another slice, into a lent buffer. Each gives the place after what it wrote; where
// there is no room it writes nothing, and gives the place it was given.
#![tactic(auto, using(crate::proofs::Used::laws))]

ghost use Rattle.field_put.specs.Bytes.{bytes, Room, Puts, Lays};

// Where there is room for them.

fn store8(out: &mut [u8], p: usize, x: u8) -> usize
    requires { Room out.old p (bytes 1 x) }
    ensures { Puts out.old p (bytes 1 x) result out.new }
{
    out[p] = x;
    p + 1
}

fn store16(out: &mut [u8], p: usize, x: u16) -> usize
    requires { Room out.old p (bytes 2 x) }
    ensures { Puts out.old p (bytes 2 x) result out.new }
{
    out[p] = (x % 256) as u8;
    out[p + 1] = (x / 256) as u8;
    p + 2
}

fn store32(out: &mut [u8], p: usize, x: u32) -> usize
    requires { Room out.old p (bytes 4 x) }
    ensures { Puts out.old p (bytes 4 x) result out.new }
{
    let q = store16(out, p, (x % 65536) as u16);
    store16(out, q, (x / 65536) as u16)
}

// With no room, nothing.

pub fn put8(out: &mut [u8], p: usize, x: u8) -> usize
    ensures { Lays out.old p (bytes 1 x) result out.new }
{
    if out.len() < p {
        return p;
    }
    if out.len() - p < 1 {
        return p;
    }
    store8(out, p, x)
}

pub fn put16(out: &mut [u8], p: usize, x: u16) -> usize
    ensures { Lays out.old p (bytes 2 x) result out.new }
{
    if out.len() < p {
        return p;
    }
    if out.len() - p < 2 {
        return p;
    }
    store16(out, p, x)
}

pub fn put32(out: &mut [u8], p: usize, x: u32) -> usize
    ensures { Lays out.old p (bytes 4 x) result out.new }
{
    if out.len() < p {
        return p;
    }
    if out.len() - p < 4 {
        return p;
    }
    store32(out, p, x)
}

pub fn put_all(out: &mut [u8], p: usize, xs: &[u8]) -> usize
    ensures { Lays out.old p xs.now result out.new }
{
    if out.len() < p {
        return p;
    }
    if out.len() - p < xs.len() {
        return p;
    }
    let mut to = p;
    let mut i: usize = 0;
    while i < xs.len() {
        out[to] = xs[i];
        to += 1;
        i += 1;
    }
    to
}
