// Whether slots of a run have the shape of a packet: each slot is tried by its place alone, and nothing goes on from slot to slot.
#![tactic(auto)]

ghost use Rattle.std.specs.Prelude.{◌≡◌, ◌+◌, ◌*◌, ◌≤◌, ◌<◌, Bool, List, ℕ, length, if◌then◌else◌};
ghost use Rattle.netif.specs.Slot.{slot_width, slot_count, is_extra, another_extra, more_data};
ghost use Rattle.grammar.specs.Grammar.{is_later};
ghost use Rattle.division.specs.Run.{slot_in, slots_in};
ghost use Rattle.division.specs.Shape.{link_at, begun, follows, leads, shaped};

use netif::{DataSlot, Extra};
use ring::RingSlot;

// A slot behind a packet's first: an extra, or a later data slot.
trait Behind {
    ghost right: { List ℕ → Bool };

    ghost announces: { List ℕ → Bool };

    // Whether a slot of this kind announces another; nothing for a slot that is not of this kind.
    fn announces(b: &[u8]) -> Option<bool>
        requires { length b.now ≡ slot_width }
        ensures { result ≡ (if right b.now then Some (announces b.now) else None) };
}

impl Behind for Extra {
    ghost right = { is_extra };

    ghost announces = { another_extra };

    fn announces(b: &[u8]) -> Option<bool> {
        let extra = Extra::decode(b);
        if extra.kind != 1 {
            return None;
        }
        Some(extra.another_follows())
    }
}

impl Behind for DataSlot {
    ghost right = { is_later };

    ghost announces = { more_data };

    fn announces(b: &[u8]) -> Option<bool> {
        let later = DataSlot::decode(b);
        if later.extra_follows() {
            return None;
        }
        Some(later.more_data())
    }
}

// Slot i of a run: a part of it, not a copy.
fn slot(run: &[u8], i: usize) -> &[u8]
    requires { slot_width * i + slot_width ≤ length run.now }
    ensures { result.now ≡ slot_in run.now i }
{
    let a = DataSlot::WIDTH * i;
    let b = a + DataSlot::WIDTH;
    &run[a..b]
}

// Whether slot i of the run is right at place j of n slots of a kind: it announces another exactly if it is not the last.
fn link<K: Behind>(run: &[u8], i: usize, j: usize, n: usize) -> bool
    requires { (slot_width * i + slot_width ≤ length run.now) × (j < slot_count) }
    ensures { result ≡ link_at K.right K.announces n j (slot_in run.now i) }
{
    let more = j + 1 < n;
    K::announces(slot(run, i)) == Some(more)
}

// Whether count slots of the run are the first of n slots of a kind. Slot by slot: for `all` over the places the proof did not close.
fn chain<K: Behind>(run: &[u8], from: usize, count: usize, n: usize) -> bool
    requires { (slot_width * (from + count) ≤ length run.now) × (count ≤ slot_count) }
    ensures { result ≡ begun K.right K.announces n 0 (slots_in run.now from count) }
{
    for j in 0..count {
        if !link::<K>(run, from + j, j, n) {
            return false;
        }
    }
    true
}

// Whether slots behind the first are the first ones of so many extras and, behind them, so many later data slots.
fn follow(run: &[u8], from: usize, count: usize, later: usize, extras: usize) -> bool
    requires { (slot_width * (from + count) ≤ length run.now) × (count ≤ slot_count) }
    ensures { result ≡ follows later extras (slots_in run.now from count) }
{
    let seen = extras.min(count);
    chain::<Extra>(run, from, seen, extras)
        && chain::<DataSlot>(run, from + seen, count - seen, later)
}

// Whether a slot is the first of a packet of so many later data slots and extras: it announces either exactly if there are any.
fn leads(first: &[u8], later: usize, extras: usize) -> bool
    requires { length first.now ≡ slot_width }
    ensures { result ≡ leads later extras first.now }
{
    let head = DataSlot::decode(first);
    head.extra_follows() == (0 < extras) && head.more_data() == (0 < later)
}

// Whether n slots are the first ones of a packet of so many later data slots and extras.
pub fn shaped(run: &[u8], at: usize, n: usize, later: usize, extras: usize) -> bool
    requires { (slot_width * (at + n) ≤ length run.now) × (1 ≤ n) × (n ≤ slot_count) }
    ensures { result ≡ shaped later extras (slots_in run.now at n) }
{
    leads(slot(run, at), later, extras) && follow(run, at + 1, n - 1, later, extras)
}
