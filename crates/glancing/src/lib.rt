// A list of held packets looked over for a take: whether it is valid, and its first free record. Where no packet is held, as is common, no index
// is needed.
#![tactic(auto)]

ghost use Rattle.std.specs.Prelude.{◌≡◌, replicate};
ghost use Rattle.held.specs.Records.{all_free};
ghost use Rattle.glancing.specs.Glance.{unheld_tally, Glanced};

use held::{Held, MOST_RECORDS};
use noting::{Index, Tally};

// Whether all records are free.
fn all_free(list: &[Held]) -> bool
    ensures { result ≡ all_free list.now }
{
    list.iter().all(|h| h.is_free())
}

// The tally of a list where no slot lies between the counters: it is valid if it has at most 256 records, all of them free.
fn unheld_tally(list: &[Held]) -> Option<Tally>
    ensures { result ≡ unheld_tally list.now }
{
    if MOST_RECORDS < list.len() || !all_free(list) {
        return None;
    }
    Some(Tally {
        free: if list.is_empty() { None } else { Some(0) },
        slots: 0,
    })
}

// The tally of a list where slots lie between the counters, by an inspection with an index that is cleared. It stays a call of its own: taken
// in line, it leaves a take too few registers, and takes on long lists took a fifth longer.
#[inline(never)]
fn held_tally(list: &[Held], consumed: u32, replied: u32, index: &mut Index) -> Option<Tally>
    requires { index.old ≡ replicate 256 0 }
    ensures { Glanced consumed replied list.now result }
{
    inspecting::inspect(list, consumed, replied, index)
}

// Looks a list over for a take. There is a tally exactly if the list is valid.
pub fn look_over(list: &[Held], consumed: u32, replied: u32) -> Option<Tally>
    ensures { Glanced consumed replied list.now result }
{
    if consumed == replied {
        return unheld_tally(list);
    }
    held_tally(list, consumed, replied, &mut Index::new())
}
