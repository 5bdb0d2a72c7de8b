// What stands behind the first slot of a packet on a transmit ring: its extras, and its later data slots, each within the limit.
#![tactic(auto)]

ghost use Rattle.std.specs.Prelude.{◌≡◌, true, ◌+◌, ◌≤◌};
ghost use Rattle.grammar.specs.Grammar.{within};
ghost use Rattle.grammar.specs.Stages.{sizes_in, ExtrasRead, LaterRead};

use grammar::{Extras, Later, Part, Unfinished};
use netif::{DataSlot, Extra};
use ring::Page;

// The most data slots of a packet, and the most extras.
const MOST_DATA_SLOTS: u32 = 18;

const MOST_EXTRAS: u32 = 4;

// Whether a packet may have so many data slots and extras.
pub fn fits(datas: u32, extras: u32) -> bool
    ensures { result ≡ within datas extras }
{
    datas <= MOST_DATA_SLOTS && extras <= MOST_EXTRAS
}

// The extras behind the first slot, if it announced any; where there is no whole packet, why, and the extras up to there. A data slot
// that is still owed makes no difference to the limit, which ends the loop.
pub fn read_extras(
    page: &Page,
    first: u32,
    posted: u32,
    announced: bool,
) -> Result<Extras, (Unfinished, Extras)>
    requires { 1 ≤ posted }
    ensures { ExtrasRead page.now first posted announced result }
{
    let mut read = Extras::NONE;
    if !announced {
        return Ok(read);
    }
    for count in 1..=MOST_EXTRAS + 1 {
        if !fits(1, count) {
            return Err((Unfinished::Misshapen, read));
        }
        if count == posted {
            return Err((Unfinished::Beginning, read));
        }
        let extra = ring::read::<Extra>(page, ring::ahead(first, count));
        if extra.kind != Extra::GSO {
            return Err((Unfinished::Misshapen, read));
        }
        read = Extras {
            count,
            gso_size: extra.gso_size,
            gso_type: extra.gso_type,
        };
        if !extra.another_follows() {
            return Ok(read);
        }
    }
    Err((Unfinished::Misshapen, read))
}

// The data slots behind the extras, if the first slot announced any; where there is no whole packet, why, and the data slots up to
// there. Each one's size goes into the table as it is added up, so that it is read once; the place 0 is the first slot's.
pub fn read_later(
    page: &Page,
    first: u32,
    posted: u32,
    extras: u32,
    announced: bool,
    parts: &mut [Part; 18],
) -> Result<Later, (Unfinished, Later)>
    requires { (extras + 1 ≤ posted) × (within 1 extras ≡ true) }
    ensures { LaterRead page.now first posted extras announced (sizes_in parts.old) (sizes_in parts.new) result }
{
    let mut read = Later { count: 0, sum: 0 };
    if !announced {
        return Ok(read);
    }
    for count in 1..=MOST_DATA_SLOTS {
        if !fits(count + 1, extras) {
            return Err((Unfinished::Misshapen, read));
        }
        let i = count + extras;
        if i == posted {
            return Err((Unfinished::Beginning, read));
        }
        let slot = ring::read::<DataSlot>(page, ring::ahead(first, i));
        if slot.extra_follows() {
            return Err((Unfinished::Misshapen, read));
        }
        parts[count as usize].size = slot.size;
        read = Later {
            count,
            sum: read.sum + u32::from(slot.size),
        };
        if !slot.more_data() {
            return Ok(read);
        }
    }
    Err((Unfinished::Misshapen, read))
}
