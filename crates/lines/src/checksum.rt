// FNV-1a in 32 bits.
ghost use Rattle.std.specs.Prelude.{◌≡◌, take};
ghost use Rattle.lines.specs.Fnv.{step, checksum};

const START: u32 = 2166136261;

const PRIME: u32 = 16777619;

// A checksum with one byte more.
#[tactic(auto, unfolding(crate::specs::Fnv::step))]
fn step(hash: u32, byte: u8) -> u32
    ensures { result ≡ step hash byte }
{
    (hash ^ u32::from(byte)).wrapping_mul(PRIME)
}

// The checksum of bytes.
pub fn of(bytes: &[u8]) -> u32
    ensures { result ≡ checksum bytes.now }
{
    bytes.iter().fold(START, |hash, byte| step(hash, *byte))
}

// The checksum of the first count bytes, or of all where there are fewer.
pub fn of_first(bytes: &[u8], count: u32) -> u32
    ensures { result ≡ checksum (take count bytes.now) }
{
    let n = bytes.len().min(count as usize);
    of(&bytes[..n])
}
