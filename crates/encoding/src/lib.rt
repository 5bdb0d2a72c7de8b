// One slot of a packet, as it is written to the ring.
#![tactic(auto)]

ghost use Rattle.std.specs.Prelude.{◌≡◌, length};
ghost use Rattle.words.specs.Word.{splice};
ghost use Rattle.ring.specs.Ring.{slot_place};
ghost use Rattle.netif.specs.Slot.{slot_width, slot_count};
ghost use Rattle.netif.specs.Encode.{extra_bytes};
ghost use Rattle.frontend.specs.Post.{flags_for, data_for};

use netif::{DataSlot, Extra};
use ring::Page;

// Flags of a data slot: more data follows, an extra follows.
const MORE: u16 = 4;

const EXTRA: u16 = 8;

// Where a data slot has its offset, with its flags behind, and its id, with its size behind.
const OFFSET: usize = 4;

const ID: usize = 8;

// An id is a counter by this number.
const IDS: u32 = 65536;

// Where an extra has its gso type, with pad and features behind, and its unused bytes.
const GSO_TYPE: usize = 4;

const UNUSED: usize = 8;

// The flags of a data slot.
#[tactic(auto, unfolding(frontend::specs::Post::flags_for))]
pub fn flags(more: bool, extra: bool) -> u16
    ensures { result ≡ flags_for more extra }
{
    MORE * u16::from(more) + EXTRA * u16::from(extra)
}

// Writes a data slot at a counter.
#[tactic(auto, using(ring::proofs::Ring::place_fits))]
pub fn put_data(ring: &mut Page, n: u32, gref: u32, flags: u16, size: u16)
    ensures { ring.new ≡ splice ring.old (slot_place slot_width slot_count n) (data_for n gref flags size) }
{
    let at = ring::place::<DataSlot>(n);
    words::put_u32(ring, at, gref);
    words::put_pair(ring, at + OFFSET, 0, flags);
    words::put_pair(ring, at + ID, (n % IDS) as u16, size);
}

// Writes an extra at a counter.
#[tactic(auto, using(ring::proofs::Ring::place_fits))]
pub fn put_extra(ring: &mut Page, n: u32, size: u16, kind: u8)
    ensures { ring.new ≡ splice ring.old (slot_place slot_width slot_count n)
        (extra_bytes (record { kind = 1; flags = 0; gso_size = size; gso_type = kind })) }
{
    let at = ring::place::<Extra>(n);
    words::put_pair(ring, at, u16::from(Extra::GSO), size);
    words::put_u32(ring, at + GSO_TYPE, u32::from(kind));
    words::put_u32(ring, at + UNUSED, 0);
}
