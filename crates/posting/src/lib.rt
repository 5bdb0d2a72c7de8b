// The slots of a packet, as they are written to the ring.
#![tactic(auto)]

ghost use Rattle.std.specs.Prelude.{◌≡◌, ◌+◌, ◌*◌, ◌≤◌, ◌<◌, length, drop};
ghost use Rattle.ring.specs.Ring.{with_slots};
ghost use Rattle.netif.specs.Slot.{slot_width, slot_count};
ghost use Rattle.frontend.specs.Post.{gso_extras, later_for, extras_for, free_slots};
ghost use Rattle.frontend.specs.Stages.{WithPacket};

use frontend::Gso;
use netif::DataSlot;
use ring::{Page, RingSlot, Side};

// The slots that are free, by the driver's count of replies read.
#[tactic(auto, unfolding(frontend::specs::Post::free_slots))]
pub fn free(ring: &Page, read: u32) -> u32
    ensures { result ≡ free_slots ring.now read }
{
    DataSlot::COUNT.saturating_sub(ring::posted(ring, read))
}

// Writes the data slots behind the first, from a counter on: one for each further piece of the frame.
fn put_later(ring: &mut Page, first: u32, later: &[u32], frame: &[u8])
    requires { (length later.now ≤ 15) × (4096 * length later.now < length frame.now) }
    ensures { ring.new ≡ with_slots slot_width slot_count ring.old first (later_for first later.now (drop 4096 frame.now)) }
{
    for (i, reference) in later.iter().enumerate() {
        let n = ring::ahead(first, i as u32);
        let flags = encoding::flags(i + 1 < later.len(), false);
        let size = lengths::piece_of(frame.len(), i + 1) as u16;
        encoding::put_data(ring, n, *reference, flags, size);
    }
}

// Writes the extra that gso needs, if any, at a counter.
fn put_extras(ring: &mut Page, n: u32, gso: Option<Gso>)
    ensures { ring.new ≡ with_slots slot_width slot_count ring.old n (extras_for gso) }
{
    if let Some(gso) = gso {
        encoding::put_extra(ring, n, gso.size, gso.kind);
    }
}

// Writes the packet at req_prod and moves req_prod behind it; whether to notify the backend.
#[tactic(auto, using(frontend::proofs::Shape::few_extras))]
pub fn put_packet(ring: &mut Page, gso: Option<Gso>, references: &[u32], frame: &[u8]) -> bool
    requires { (1 ≤ length references.now)
        × (length references.now ≤ 16)
        × (length frame.now ≤ 65535)
        × (4096 * length references.now ≤ length frame.now + 4095) }
    ensures { WithPacket ring.old gso references.now frame.now ring.new result }
{
    let old = ring::requests(ring);
    let count = references.len() as u32;
    let extras = extras_of(gso);
    let flags = encoding::flags(1 < count, 0 < extras);
    encoding::put_data(ring, old, references[0], flags, frame.len() as u16);
    put_extras(ring, ring::ahead(old, 1), gso);
    put_later(ring, ring::ahead(old, 1 + extras), &references[1..], frame);
    let new = ring::ahead(old, count + extras);
    ring::publish(ring, Side::Requests, old, new)
}

// The extras that gso needs.
pub fn extras_of(gso: Option<Gso>) -> u32
    ensures { result ≡ gso_extras gso }
{
    u32::from(gso.is_some())
}
