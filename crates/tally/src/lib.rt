// What is counted of the comparisons.
#![tactic(auto)]

ghost use Rattle.std.specs.Prelude.{◌≡◌};
ghost use Rattle.tally.specs.Answer.{end_of};
ghost use Rattle.tally.specs.Tally.{Together, Counted};

use division::{Cuts, Ending, Refused};
use readers::Compared;
use std::ops::Add;

// Runs, their whole slots, the cuts of each reader, how many agreed, how many runs ended alike, and how many ended in each way by
// the slow reader.
#[derive(Clone, Copy, Default)]
pub struct Tally {
    pub runs: usize,
    pub slots: usize,
    pub slow: usize,
    pub fast: usize,
    pub agreed: usize,
    pub alike: usize,
    pub empty: usize,
    pub waiting: usize,
    pub misshapen: usize,
    pub uneven: usize,
    pub too_long: usize,
}

// What was counted of some comparisons and of others, together.
impl Add for Tally {
    type Output = Tally;

    ghost add_gives = { Together };

    fn add(self, other: Tally) -> Tally {
        Tally {
            runs: self.runs.wrapping_add(other.runs),
            slots: self.slots.wrapping_add(other.slots),
            slow: self.slow.wrapping_add(other.slow),
            fast: self.fast.wrapping_add(other.fast),
            agreed: self.agreed.wrapping_add(other.agreed),
            alike: self.alike.wrapping_add(other.alike),
            empty: self.empty.wrapping_add(other.empty),
            waiting: self.waiting.wrapping_add(other.waiting),
            misshapen: self.misshapen.wrapping_add(other.misshapen),
            uneven: self.uneven.wrapping_add(other.uneven),
            too_long: self.too_long.wrapping_add(other.too_long),
        }
    }
}

// How an answer ends: in a division's rest, or in a refusal.
fn end(answer: Result<Cuts, Refused>) -> Result<Ending, Refused>
    ensures { result ≡ end_of answer }
{
    answer.map(|cuts| cuts.ending)
}

// What is counted of one comparison.
pub fn of(slots: usize, compared: Compared) -> Tally
    ensures { Counted slots compared result }
{
    let slow = end(compared.slow);
    Tally {
        runs: 1,
        slots,
        slow: readers::count_of(compared.slow),
        fast: readers::count_of(compared.fast),
        agreed: compared.agreed,
        alike: usize::from(slow == end(compared.fast)),
        empty: usize::from(slow == Ok(Ending::Empty)),
        waiting: usize::from(slow == Ok(Ending::Waiting)),
        misshapen: usize::from(slow == Ok(Ending::Misshapen)),
        uneven: usize::from(slow == Err(Refused::Uneven)),
        too_long: usize::from(slow == Err(Refused::TooLong)),
    }
}
