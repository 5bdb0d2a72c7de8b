// Replies to the slots of a packet.
#![tactic(auto)]

ghost use Rattle.std.specs.Prelude.{◌≡◌, ◌+◌, ◌≤◌, ◌<◌, length};
ghost use Rattle.words.specs.Word.{splice};
ghost use Rattle.ring.specs.Ring.{slot_place};
ghost use Rattle.netif.specs.Slot.{slot_width, slot_count, transmit_slot};
ghost use Rattle.packet.specs.Judge.{data_reply, extra_reply};
ghost use Rattle.transmit.specs.Take.{replies_to};
ghost use Rattle.transmit.specs.Stages.{replied_by};

use netif::{DataSlot, Extra};
use ring::Page;

// Replies to the data slot at a counter: its own id and a status.
#[tactic(auto, unfolding(packet::specs::Judge::data_reply, netif::specs::Slot::transmit_reply, netif::specs::Decode::data_of))]
fn reply_data(ring: &mut Page, n: u32, status: u16)
    ensures { ring.new ≡ splice ring.old (slot_place slot_width slot_count n)
        (data_reply status (transmit_slot ring.old n)) }
{
    let slot = ring::read::<DataSlot>(ring, n);
    ring::reply::<DataSlot>(ring, n, slot.id, status);
}

// Replies to all slots of a packet: its first slot, its extras and its later data slots, with ids as the ring has them.
pub fn reply(ring: &mut Page, first: u32, slots: u32, extras: u32, status: u16)
    requires { (slots ≤ 256) × (extras < slots) }
    ensures { ring.new ≡ replies_to ring.old first slots extras status }
{
    reply_data(ring, first, status);
    for i in 1..1 + extras {
        ring::reply::<Extra>(ring, ring::ahead(first, i), 0, 1);
    }
    for i in 1 + extras..slots {
        reply_data(ring, ring::ahead(first, i), status);
    }
}
