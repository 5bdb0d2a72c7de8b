// Both readers of a run, and their answers compared.
#![tactic(auto)]

ghost use Rattle.std.specs.Prelude.{◌≡◌, ◌≤◌};
ghost use Rattle.netif.specs.Slot.{slot_count};
ghost use Rattle.readers.specs.Compare.{count_of, agreeing, compared_of};

use division::{Cuts, Refused};

// What both readers answered, and at how many of the slow one's cuts the fast one cut the same.
#[derive(Clone, Copy)]
pub struct Compared {
    pub slow: Result<Cuts, Refused>,
    pub fast: Result<Cuts, Refused>,
    pub agreed: usize,
}

// The number of packets that an answer has.
pub fn count_of(answer: Result<Cuts, Refused>) -> usize
    ensures { result ≡ count_of answer }
{
    answer.map_or(0, |cuts| cuts.count)
}

// At how many of the first n places two tables are the same. Place by place: for a count over a zip the proof did not close.
fn agreed(n: usize, a: &[usize; 256], b: &[usize; 256]) -> usize
    requires { n ≤ slot_count }
    ensures { result ≡ agreeing n a.now b.now }
{
    let mut same = 0;
    for i in 0..n {
        if a[i] == b[i] {
            same += 1;
        }
    }
    same
}

// Both readers on one run, 12 bytes a slot: they answer the same, and all cuts agree. The promise is of these values; that both
// readers were run is for the reader of the code.
pub fn compare(run: &[u8]) -> Compared
    ensures { result ≡ compared_of run.now }
{
    let mut slow_cuts = [0usize; 256];
    let mut fast_cuts = [0usize; 256];
    let slow = slow_reader::divide(run, &mut slow_cuts);
    let fast = fast_reader::divide(run, &mut fast_cuts);
    Compared {
        slow,
        fast,
        agreed: agreed(count_of(slow), &slow_cuts, &fast_cuts),
    }
}
