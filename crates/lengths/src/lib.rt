// The length of a frame: whether a frame may have it, and the pieces of a page each that it comes in.
#![tactic(auto)]

ghost use Rattle.std.specs.Prelude.{◌≡◌, ◌-◌, ◌*◌, ◌≤◌, min};
ghost use Rattle.receive.specs.Put.{piece_size, bad_length, needed};

const SHORTEST: usize = 14;

const LONGEST: usize = 65535;

// The length of a piece: a page, but for the last one.
pub const PIECE: usize = 4096;

// Whether a length is none that a frame may have.
#[tactic(auto, unfolding(receive::specs::Put::bad_length))]
pub fn bad_length(size: usize) -> bool
    ensures { result ≡ bad_length size }
{
    !(SHORTEST..=LONGEST).contains(&size)
}

// The requests that a frame needs: one for each piece.
#[tactic(auto, unfolding(receive::specs::Put::needed))]
pub fn needed(size: usize) -> u32
    requires { size ≤ 65535 }
    ensures { result ≡ needed size }
{
    size.div_ceil(PIECE) as u32
}

// The length of piece i of a frame.
pub fn piece_of(size: usize, i: usize) -> usize
    requires { piece_size * i ≤ size }
    ensures { result ≡ min piece_size (size - piece_size * i) }
{
    let left = size - PIECE * i;
    left.min(PIECE)
}
