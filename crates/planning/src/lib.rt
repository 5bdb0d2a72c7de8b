// Causes 4 and 5 of a whole packet's data slots, and the plan of its parts.
#![tactic(auto)]

ghost use Rattle.std.specs.Prelude.{◌≡◌, ◌≤◌};
ghost use Rattle.packet.specs.Judge.{judge_slots};
ghost use Rattle.grammar.specs.Packet.{later_of};
ghost use Rattle.grammar.specs.Stages.{sizes_in};
ghost use Rattle.packet.specs.Stages.{SizesOf, packet_at, Ready, later_at, LaterJudged, Judged};

use answer::Fault;
use grammar::{Outline, Part};
use netif::DataSlot;
use ring::Page;

// Causes 4 and 5 of the later data slots, slot by slot. What decides an access of the window is read once and goes into the table.
fn judge_later(
    ring: &Page,
    first: u32,
    extras: u32,
    later: u32,
    parts: &mut [Part; 18],
    grants: &[u8],
    window: &[u8],
) -> Result<(), Fault>
    requires { (extras ≤ 256)
        × (later ≤ 17)
        × SizesOf (sizes_in parts.old) (later_at ring.now first extras later) }
    ensures { LaterJudged grants.now window.now ring.now first extras later parts.old parts.new result }
{
    for i in 0..later {
        let place = extras + 1 + i;
        let slot = ring::read::<DataSlot>(ring, ring::ahead(first, place));
        let at = i as usize + 1;
        let size = parts[at].size;
        let page = causes::judge_slot(grants, window, slot, size, place)?;
        parts[at] = Part {
            page,
            offset: slot.offset,
            size,
        };
    }
    Ok(())
}

// Causes 4 and 5 of all data slots, whose later sizes are in the table; where they are good, it gets the packet's parts. The first
// slot's part is what the later sizes leave of the total.
pub fn judge_slots(
    ring: &Page,
    first: u32,
    o: Outline,
    parts: &mut [Part; 18],
    grants: &[u8],
    window: &[u8],
) -> Result<(), Fault>
    requires { Ready ring.now first o
        × (o.later_bytes ≤ o.head.size)
        × SizesOf (sizes_in parts.old) (later_of o.extras (packet_at ring.now first o)) }
    ensures { Judged grants.now o.extras (packet_at ring.now first o)
        (judge_slots grants.now window.now o.extras (packet_at ring.now first o))
        parts.new result }
{
    let head = o.head;
    let own = (head.size as u32 - o.later_bytes) as u16;
    let page = causes::judge_slot(grants, window, head, own, 0)?;
    parts[0] = Part {
        page,
        offset: head.offset,
        size: own,
    };
    let later = o.slots - 1 - o.extras;
    judge_later(ring, first, o.extras, later, parts, grants, window)
}
