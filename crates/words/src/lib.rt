// Little-endian numbers in byte slices.
#![tactic(auto)]

ghost use Rattle.std.specs.Prelude.{◌≡◌, ◌++◌, ◌+◌, ◌≤◌, ◌<◌, length, take, drop};
ghost use Rattle.words.specs.Word.{u16_at, u32_at, u16_bytes, u32_bytes, splice, bit};

// The first N bytes from a position on.
pub fn bytes_at<const N: usize>(b: &[u8], at: usize) -> [u8; N]
    requires { at + N ≤ length b.now }
    ensures { result ≡ take N (drop at b.now) }
{
    let mut bytes = [0u8; N];
    bytes.copy_from_slice(&b[at..at + N]);
    bytes
}

// Stores bytes at a position.
#[tactic(auto, unfolding(crate::specs::Word::splice))]
pub fn put_bytes(b: &mut [u8], at: usize, bytes: &[u8])
    requires { at + length bytes.now ≤ length b.old }
    ensures { b.new ≡ splice b.old at bytes.now }
{
    b[at..at + bytes.len()].copy_from_slice(bytes);
}

// The 16-bit number at a position. Each width has functions of its own, one call long: a trait over the two would repeat their bodies.
#[tactic(auto, unfolding(crate::specs::Word::u16_at))]
pub fn u16_at(b: &[u8], at: usize) -> u16
    requires { at + 2 ≤ length b.now }
    ensures { result ≡ u16_at b.now at }
{
    u16::from_le_bytes(bytes_at(b, at))
}

// The 32-bit number at a position.
#[tactic(auto, unfolding(crate::specs::Word::u32_at))]
pub fn u32_at(b: &[u8], at: usize) -> u32
    requires { at + 4 ≤ length b.now }
    ensures { result ≡ u32_at b.now at }
{
    u32::from_le_bytes(bytes_at(b, at))
}

// Stores a 16-bit number at a position.
#[tactic(auto, unfolding(crate::specs::Word::u16_bytes))]
pub fn put_u16(b: &mut [u8], at: usize, x: u16)
    requires { at + 2 ≤ length b.old }
    ensures { b.new ≡ splice b.old at (u16_bytes x) }
{
    put_bytes(b, at, &u16::to_le_bytes(x));
}

// Stores a 32-bit number at a position.
#[tactic(auto, unfolding(crate::specs::Word::u32_bytes))]
pub fn put_u32(b: &mut [u8], at: usize, x: u32)
    requires { at + 4 ≤ length b.old }
    ensures { b.new ≡ splice b.old at (u32_bytes x) }
{
    put_bytes(b, at, &u32::to_le_bytes(x));
}

// Stores two 16-bit numbers, one after the other, as one 32-bit store.
#[tactic(auto, using(crate::proofs::Word::pair_bytes))]
pub fn put_pair(b: &mut [u8], at: usize, x: u16, y: u16)
    requires { at + 4 ≤ length b.old }
    ensures { b.new ≡ splice b.old at (u16_bytes x ++ u16_bytes y) }
{
    put_u32(b, at, u32::from(x) + 65536 * u32::from(y));
}

// Bit k of a number.
pub fn bit_of(x: u32, k: u32) -> bool
    requires { k < 32 }
    ensures { result ≡ bit k x }
{
    (x >> k) & 1 == 1
}
