// The slow reader of a run: for one length after the other it asks the grammar, by trying every shape of a packet, whether so many
// slots are a packet or a proper beginning of one.
#![tactic(auto)]

ghost use Rattle.std.specs.Prelude.{◌≡◌, ◌+◌, ◌*◌, ◌≤◌, length};
ghost use Rattle.netif.specs.Slot.{slot_width, slot_count};
ghost use Rattle.division.specs.Run.{slots_in};
ghost use Rattle.division.specs.Answer.{StepIs, CutAs, DividedAs};
ghost use Rattle.slow_reader.specs.Asking.{AskedWith, AskedIs};

use division::{Cuts, Ending, Refused};
use netif::DataSlot;
use ring::RingSlot;

// The most extras of a packet, and the most data slots behind its first.
const EXTRAS: usize = 4;

const LATER: usize = 17;

// What some slots are, where they begin a packet: all of it, or fewer slots than it has.
#[derive(Clone, Copy)]
pub enum Asked {
    Packet,
    Beginning,
}

// What n slots are, by the packets with so many extras; nothing where they begin none of these.
fn ask_with(run: &[u8], at: usize, n: usize, extras: usize) -> Option<Asked>
    requires { (slot_width * (at + n) ≤ length run.now) × (1 ≤ n) × (n ≤ slot_count) × (extras ≤ 4) }
    ensures { AskedWith extras (slots_in run.now at n) result }
{
    for later in 0..=LATER {
        let all = 1 + later + extras;
        if n <= all && shape::shaped(run, at, n, later, extras) {
            if n == all {
                return Some(Asked::Packet);
            }
            return Some(Asked::Beginning);
        }
    }
    None
}

// What n slots are, by all packets; nothing where they begin none.
fn ask(run: &[u8], at: usize, n: usize) -> Option<Asked>
    requires { (slot_width * (at + n) ≤ length run.now) × (1 ≤ n) × (n ≤ slot_count) }
    ensures { AskedIs (slots_in run.now at n) result }
{
    for extras in 0..=EXTRAS {
        if let Some(asked) = ask_with(run, at, n, extras) {
            return Some(asked);
        }
    }
    None
}

// The length of the packet at the front of the slots that are left, or how they end: each length is asked about, from 1 on.
fn front(run: &[u8], at: usize, left: usize) -> Result<usize, Ending>
    requires { (slot_width * (at + left) ≤ length run.now) × (1 ≤ left) × (left ≤ slot_count) }
    ensures { StepIs (slots_in run.now at left) result }
{
    for n in 1..=left {
        match ask(run, at, n) {
            Some(Asked::Packet) => return Ok(n),
            Some(Asked::Beginning) => {}
            None => return Err(Ending::Misshapen),
        }
    }
    Err(Ending::Waiting)
}

// Cuts packets off the front as long as one stands there. Its loop and the test of a run's length stand in the fast reader too: the
// readers share the decoding of slots alone, as shared code would not be compared.
fn cut(run: &[u8], slots: usize, cuts: &mut [usize; 256]) -> Cuts
    requires { (slot_width * slots ≤ length run.now) × (slots ≤ slot_count) × (length cuts.old ≡ slot_count) }
    ensures { CutAs (slots_in run.now 0 slots) cuts.old cuts.new result }
{
    // Counted by hand: a step goes on by a packet's length.
    let mut at = 0;
    let mut count = 0;
    while at < slots {
        let n = match front(run, at, slots - at) {
            Ok(n) => n,
            Err(ending) => return Cuts { count, ending },
        };
        cuts[count] = n;
        count += 1;
        at += n;
    }
    Cuts {
        count,
        ending: Ending::Empty,
    }
}

// The division of a run, 12 bytes a slot. The table gets each packet's number of slots, in order; its other places stay.
pub fn divide(run: &[u8], cuts: &mut [usize; 256]) -> Result<Cuts, Refused>
    requires { length cuts.old ≡ slot_count }
    ensures { DividedAs run.now cuts.old cuts.new result }
{
    if run.len() % DataSlot::WIDTH != 0 {
        return Err(Refused::Uneven);
    }
    let slots = run.len() / DataSlot::WIDTH;
    if (DataSlot::COUNT as usize) < slots {
        return Err(Refused::TooLong);
    }
    Ok(cut(run, slots, cuts))
}
