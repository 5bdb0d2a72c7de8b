// The fast reader: the run is laid on a ring page, and the divider reads packet by packet off it.
#![tactic(auto)]

ghost use Rattle.std.specs.Prelude.{◌≡◌, ◌*◌, ◌≤◌, length};
ghost use Rattle.netif.specs.Slot.{slot_width, slot_count, transmit_slots};
ghost use Rattle.division.specs.Answer.{StepIs, CutAs};
ghost use Rattle.division.specs.Fast.{divided_of, table_of};

use division::{Cuts, Ending, Refused};
use grammar::{Part, Unfinished};
use netif::DataSlot;
use ring::{Page, RingSlot};

// Where a ring page's first slot stands.
const FIRST: usize = 64;

// The length of the packet at the front of the slots that are left on a page, or how they end.
fn front(page: &Page, at: u32, left: u32) -> Result<usize, Ending>
    requires { (1 ≤ left) × (left ≤ slot_count) }
    ensures { StepIs (transmit_slots page.now at left) result }
{
    let mut parts = [Part::NONE; 18];
    match divider::read(page, at, left, &mut parts) {
        Ok(outline) => Ok(outline.slots as usize),
        Err(Unfinished::Beginning) => Err(Ending::Waiting),
        Err(Unfinished::Misshapen) => Err(Ending::Misshapen),
    }
}

// Cuts packets off the front of the slots on a page as long as one stands there. Its loop and the test of a run's length stand in the
// slow reader too: the readers share the decoding of slots alone, as shared code would not be compared.
fn cut(page: &Page, slots: usize, cuts: &mut [usize; 256]) -> Cuts
    requires { (slots ≤ slot_count) × (length cuts.old ≡ slot_count) }
    ensures { CutAs (transmit_slots page.now 0 slots) cuts.old cuts.new result }
{
    // Counted by hand: a step goes on by a packet's length.
    let mut at = 0;
    let mut count = 0;
    while at < slots {
        let n = match front(page, at as u32, (slots - at) as u32) {
            Ok(n) => n,
            Err(ending) => return Cuts { count, ending },
        };
        cuts[count] = n;
        count += 1;
        at += n;
    }
    Cuts {
        count,
        ending: Ending::Empty,
    }
}

// The division of a run, 12 bytes a slot. The table gets each packet's number of slots, in order; its other places stay.
pub fn divide(run: &[u8], cuts: &mut [usize; 256]) -> Result<Cuts, Refused>
    requires { length cuts.old ≡ slot_count }
    ensures { (result ≡ divided_of run.now) × (cuts.new ≡ table_of run.now cuts.old) }
{
    if run.len() % DataSlot::WIDTH != 0 {
        return Err(Refused::Uneven);
    }
    let slots = run.len() / DataSlot::WIDTH;
    if (DataSlot::COUNT as usize) < slots {
        return Err(Refused::TooLong);
    }
    let mut page = [0u8; ring::PAGE_SIZE];
    words::put_bytes(&mut page, FIRST, run);
    Ok(cut(&page, slots, cuts))
}
