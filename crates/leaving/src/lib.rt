// Held packets leave in the order of taking, as far as finished ones reach: their replies are written, and their records freed.
#![tactic(auto)]

ghost use Rattle.std.specs.Prelude.{◌≡◌, ◌≤◌, ◌<◌};
ghost use Rattle.ring.specs.Ring.{wadd};
ghost use Rattle.held.specs.Release.{release};
ghost use Rattle.inspecting.specs.Inspection.{Indexed};
ghost use Rattle.transmit.specs.Take.{replies_to};
ghost use Rattle.leaving.specs.Left.{Left};

use held::Held;
use noting::Index;
use ring::Page;

// Replies to the packet of a record, whose first slot is at an offset behind the counter of replies sent. A reply has the low 16 bits of the status.
fn reply_for(ring: &mut Page, replied: u32, offset: u32, h: Held)
    requires { (h.slots ≤ 256) × (h.extras < h.slots) }
    ensures { ring.new ≡ replies_to ring.old (wadd replied offset) h.slots h.extras h.status }
{
    let first = ring::ahead(replied, offset);
    let status = (h.status % 65536) as u16;
    replying::reply(ring, first, h.slots, h.extras, status);
}

// As long as the oldest packet is finished it is replied to and its record is freed. Returns the slots of those.
pub fn leave(list: &mut [Held], index: &Index, between: u32, replied: u32, ring: &mut Page) -> u32
    requires { Indexed between replied list.old index.now }
    ensures { Left (release between replied list.old) replied ring.old result list.new ring.new }
{
    // Counted by hand: a step is as long as the oldest packet has slots.
    let mut offset = 0;
    while offset < between {
        let at = index.place(offset);
        let h = list[at];
        if !h.is_finished() {
            return offset;
        }
        reply_for(ring, replied, offset, h);
        records::release(list, at);
        offset += h.slots;
    }
    offset
}
