// The bytes and the choices that every other crate uses. Each function takes every input: what stands past a slice's end is 0.
#![tactic(auto)]

ghost use Rattle.std.specs.Prelude.{◌≡◌, drop, min};
ghost use Rattle.wire.specs.Bytes.{byte_at, bytes_of, number_at, over, Reads};
ghost use Rattle.wire.specs.Choice.{both, either, first};
ghost use Rattle.wire.specs.Puts.{PutsIfRoom};

// Byte i.
pub fn byte_at(s: &[u8], i: usize) -> u8
    ensures { Reads (byte_at s.now i) 256 result }
{
    s.get(i).copied().unwrap_or(0)
}

// The bytes from i on.
fn from(s: &[u8], i: usize) -> &[u8]
    ensures { result.now ≡ drop i s.now }
{
    s.get(i..).unwrap_or(&[])
}

// The number of two bytes at i. `u16::from_be_bytes` was tried, and misses a speed: an INT section of empty pairs takes 4.7 ns a byte with
// it, and 3.7 so. This and the next stay two: one of any length would have to require that the number fits.
#[tactic(auto, unfolding(crate::specs::Bytes::number_at))]
pub fn u16_at(s: &[u8], i: usize) -> usize
    ensures { Reads (number_at 2 s.now i) 65536 result }
{
    let rest = from(s, i);
    byte_at(rest, 0) as usize * 256 + byte_at(rest, 1) as usize
}

// The number of four bytes at i.
#[tactic(auto, unfolding(crate::specs::Bytes::number_at))]
pub fn u32_at(s: &[u8], i: usize) -> usize
    ensures { Reads (number_at 4 s.now i) 4294967296 result }
{
    let rest = from(s, i);
    u32::from_be_bytes([
        byte_at(rest, 0),
        byte_at(rest, 1),
        byte_at(rest, 2),
        byte_at(rest, 3),
    ]) as usize
}

// The four bytes of a number, high byte first.
#[tactic(auto, unfolding(crate::specs::Bytes::bytes_of))]
pub fn u32_bytes(x: u32) -> [u8; 4]
    ensures { result ≡ bytes_of 4 x }
{
    x.to_be_bytes()
}

// The smaller of two numbers. This and the last three, `both`, `either` and `first`, are Rust's own words: they stay, since their contracts
// are promised.
pub fn smaller(a: usize, b: usize) -> usize
    ensures { result ≡ min a b }
{
    a.min(b)
}

// Copies to the start of dst as much of src as it has room for. A `for`, since `copy_from_slice` is a call of memmove, and libfossknut.a asks for no
// name from outside.
#[tactic(auto, using(crate::proofs::Lists::over_step, crate::proofs::Lists::over_end))]
pub fn copy(src: &[u8], dst: &mut [u8])
    ensures { dst.new ≡ over src.now dst.old }
{
    for i in 0..smaller(src.len(), dst.len()) {
        dst[i] = src[i];
    }
}

// Lays bytes over the buffer from `at` on and gives where they end; where there is no room for all of them, it does nothing and gives `at`.
pub fn put(s: &[u8], at: usize, buffer: &mut [u8]) -> usize
    ensures { PutsIfRoom buffer.old at s.now result buffer.new }
{
    if buffer.len() < at || buffer.len() - at < s.len() {
        return at;
    }
    copy(s, &mut buffer[at..]);
    at + s.len()
}

// Both tests hold; code writes `&&`.
#[tactic(auto, unfolding(crate::specs::Choice::both))]
pub fn both(t: bool, u: bool) -> bool
    ensures { result ≡ both t u }
{
    t && u
}

// One of two tests holds; code writes `||`.
#[tactic(auto, unfolding(crate::specs::Choice::either))]
pub fn either(t: bool, u: bool) -> bool
    ensures { result ≡ either t u }
{
    t || u
}

// A test's number where the test holds, else what the rest of the row gives.
#[tactic(auto, unfolding(crate::specs::Choice::first))]
pub fn first(test: bool, number: u8, rest: u8) -> u8
    ensures { result ≡ first test number rest }
{
    if test { number } else { rest }
}
