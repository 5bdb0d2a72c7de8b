// The inspection of a list of held packets: whether it is valid, its first free record, and an index of the records by their slots.
#![tactic(auto)]

ghost use Rattle.std.specs.Prelude.{◌≡◌, ◌≤◌, ℕ, true, false, None, is_some, length, replicate};
ghost use Rattle.ring.specs.Ring.{wsub};
ghost use Rattle.held.specs.Valid.{valid};
ghost use Rattle.noting.specs.Survey.{made, surveyed};
ghost use Rattle.inspecting.specs.Inspection.{Tickets, Shown};

use held::Held;
use noting::{Index, Tally};

// A pass over the records, as far as none is refused.
fn survey(list: &[Held], replied: u32, between: u32, index: &mut Index) -> Option<Tally>
    requires { (length list.now ≤ 256) × (between ≤ 256) × (index.old ≡ replicate 256 0) }
    ensures found { made result index.new ≡ surveyed list.now replied between index.old }
    ensures tickets { is_some result ≡ true → Tickets list.now }
    ensures refused { result ≡ None → (c : ℕ) → wsub c replied ≡ between → valid c replied list.now ≡ false }
{
    let mut tally = Tally::new();
    for (i, h) in list.iter().enumerate() {
        tally = tally.note(i, *h, replied, between, index)?;
    }
    Some(tally)
}

// Inspects a list, with an index that is cleared. There is a tally exactly if the list is valid.
pub fn inspect(list: &[Held], consumed: u32, replied: u32, index: &mut Index) -> Option<Tally>
    requires { index.old ≡ replicate 256 0 }
    ensures { Shown consumed replied list.now result index.new }
{
    let between = consumed.wrapping_sub(replied);
    if !noting::within_limits(list.len(), between) {
        return None;
    }
    survey(list, replied, between, index)?.confirm(index, between)
}
