// Where the packet at the front of a transmit ring ends, and what is to be known of it.
#![tactic(auto)]

ghost use Rattle.std.specs.Prelude.{◌≡◌, ◌≤◌};
ghost use Rattle.netif.specs.Slot.{transmit_slot, transmit_slots};
ghost use Rattle.grammar.specs.Divide.{alone};
ghost use Rattle.grammar.specs.Stages.{sizes_in, FrontRead, AfterExtras};

use grammar::{Extras, Outline, Part, Unfinished};
use netif::DataSlot;
use ring::Page;

// Whether the first slot is a packet by itself: it announces neither an extra nor more data.
#[tactic(auto, unfolding(grammar::specs::Divide::alone, netif::specs::Slot::more_data, netif::specs::Slot::extra_follows, netif::specs::Decode::data_of))]
pub fn is_alone(page: &Page, first: u32) -> bool
    ensures { result ≡ alone (transmit_slot page.now first) }
{
    let slot = ring::read::<DataSlot>(page, first);
    !slot.more_data() && !slot.extra_follows()
}

// The packet whose extras were read. The first slot's fields are read when all slots are there: a waiting packet needs its flags only.
// It is taken in line at both calls, since a call of its own passes its results through memory.
#[inline(always)]
fn read_rest(
    page: &Page,
    first: u32,
    posted: u32,
    extras: Extras,
    more: bool,
    parts: &mut [Part; 18],
) -> Result<Outline, Unfinished>
    requires { AfterExtras page.now first posted more extras }
    ensures { FrontRead (transmit_slots page.now first posted) (sizes_in parts.old) (sizes_in parts.new) result }
{
    let later = match scanning::read_later(page, first, posted, extras.count, more, parts) {
        Ok(later) => later,
        Err((why, _)) => return Err(why),
    };
    Ok(Outline {
        head: ring::read::<DataSlot>(page, first),
        slots: later.count + 1 + extras.count,
        extras: extras.count,
        later_bytes: later.sum,
        gso_size: extras.gso_size,
        gso_type: extras.gso_type,
    })
}

// What stands at the front of the slots posted from counter first on. Of a whole packet the table gets the later data slots'
// sizes, from the place 1 on. Where no extra is announced the rest is read by a call of its own, with zeros that the compiler knows.
pub fn read(
    page: &Page,
    first: u32,
    posted: u32,
    parts: &mut [Part; 18],
) -> Result<Outline, Unfinished>
    requires { 1 ≤ posted }
    ensures { FrontRead (transmit_slots page.now first posted) (sizes_in parts.old) (sizes_in parts.new) result }
{
    let head = ring::read::<DataSlot>(page, first);
    let more = head.more_data();
    let announced = head.extra_follows();
    if !announced {
        return read_rest(page, first, posted, Extras::NONE, more, parts);
    }
    let extras = match scanning::read_extras(page, first, posted, announced) {
        Ok(extras) => extras,
        Err((why, _)) => return Err(why),
    };
    read_rest(page, first, posted, extras, more, parts)
}
