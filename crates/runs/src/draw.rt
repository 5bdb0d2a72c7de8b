// The numbers that the generator draws: the sequence of Park and Miller with the factor 48,271.
ghost use Rattle.std.specs.Prelude.{◌≡◌, ◌≤◌};
ghost use Rattle.runs.specs.Draw.{drawn_after, first_of};

const FACTOR: u64 = 48271;

const MODULUS: u64 = 2147483647;

// The number drawn after another.
pub fn next(x: u32) -> u32
    ensures { result ≡ drawn_after x }
{
    (FACTOR * u64::from(x) % MODULUS) as u32
}

// The first number of a run.
pub fn first(number: u32) -> u32
    ensures { result ≡ first_of number }
{
    next(next(number.wrapping_add(1)))
}

// A number from 0 to most that a drawn number stands for: 0, or with a chance of a little less than one half any other.
pub fn share(x: u32, most: u8) -> u32
    ensures { result ≤ most }
{
    let most = u32::from(most);
    let y = x % (2 * most + 1);
    if y < most { y + 1 } else { 0 }
}
