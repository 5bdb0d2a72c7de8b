// One take of a batch: on what is left of the frame buffer, its report listed; and the numbers behind it.
#![tactic(auto)]

ghost use Rattle.std.specs.Prelude.{◌≡◌, List, None, Some, is_none, ◌+◌, ◌*◌, ◌≤◌, ◌<◌, length, drop};
ghost use Rattle.held.specs.declared.Held.{Held};
ghost use Rattle.transmit.specs.declared.Answer.{Answer};
ghost use Rattle.transmit.specs.Take.{transmit_take};
ghost use Rattle.transmit.specs.Stages.{Found, Gives};
ghost use Rattle.concluding.specs.Taken.{ConcludesAs};
ghost use Rattle.listing.specs.Listing.{started, behind, total_of, listed_in, advanced};

use concluding::Taken;
use noting::Tally;
use reporting::Words;
use transmit::{Answer, Queue};

// The numbers of a batch between two takes: its queue, whether its list of records is valid, the place of the first free record, if one is
// free, the bytes of the frame buffer that are filled, and the reports listed.
#[derive(Clone, Copy)]
pub struct Batch {
    pub queue: Queue,
    pub good: bool,
    pub free: Option<usize>,
    pub filled: usize,
    pub count: u32,
}

// The bytes of the frame that an answer hands over.
fn total_of(answer: Answer) -> u32
    ensures { result ≡ total_of answer }
{
    match answer {
        Answer::Done { summary, .. } => summary.total,
        _ => 0,
    }
}

impl Batch {
    // The numbers before the first take, by what was found of the list of records.
    pub fn new(queue: Queue, found: Option<Tally>) -> Batch
        ensures { result ≡ started queue found }
    {
        Batch {
            queue,
            good: found.is_some(),
            free: noting::free_in(found),
            filled: 0,
            count: 0,
        }
    }

    // The answer of a take that comes to a packet of one slot and hands it over; else none, and the frame buffer is as it was.
    fn hand_over(
        &self,
        grants: &[u8],
        window: &[u8],
        ring: &[u8],
        frame: &mut [u8],
    ) -> Option<Answer>
        ensures none { result ≡ None → frame.new ≡ frame.old }
        ensures some { (a : Answer) → result ≡ Some a → (l : List Held) → Found self.now.queue self.now.good (is_none self.now.free) l → Gives
            (transmit_take grants.now window.now self.now.queue ring.now frame.old l)
            self.now.queue l a ring.now frame.new }
    {
        let page = ring.as_array::<{ ring::PAGE_SIZE }>()?;
        if !deciding::comes_to_one(self.queue, self.good, self.free.is_none(), page) {
            return None;
        }
        alone::hand_over(self.queue.consumed, grants, window, page, frame)
    }

    // The answer of a take on a frame buffer.
    fn answer(&self, grants: &[u8], window: &[u8], ring: &mut [u8], frame: &mut [u8]) -> Answer
        ensures { (l : List Held) → Found self.now.queue self.now.good (is_none self.now.free) l → Gives
            (transmit_take grants.now window.now self.now.queue ring.old frame.old l)
            self.now.queue l result ring.new frame.new }
    {
        let full = self.free.is_none();
        match self.hand_over(grants, window, ring, frame) {
            Some(answer) => answer,
            None => deciding::decide(self.queue, self.good, full, grants, window, ring, frame),
        }
    }

    // A take on the frame buffer behind the bytes filled.
    fn take_rest(&self, grants: &[u8], window: &[u8], ring: &mut [u8], frame: &mut [u8]) -> Taken
        requires { self.now.filled ≤ length frame.old }
        ensures { (l : List Held) → Found self.now.queue self.now.good (is_none self.now.free) l → ConcludesAs
            (behind self.now.filled frame.old (transmit_take grants.now window.now self.now.queue ring.old (drop self.now.filled frame.old) l))
            self.now.queue l result ring.new frame.new }
    {
        let answer = self.answer(grants, window, ring, &mut frame[self.filled..]);
        concluding::taken_of(self.queue, answer)
    }

    // A take of a batch, with its report listed.
    pub fn take_listed(
        &self,
        grants: &[u8],
        window: &[u8],
        ring: &mut [u8],
        frame: &mut [u8],
        results: &mut [Words],
    ) -> Taken
        requires { (self.now.filled ≤ length frame.old) × (self.now.count < length results.old) }
        ensures { (results.new ≡ listed_in results.old self.now.count result)
            × ((l : List Held) → Found self.now.queue self.now.good (is_none self.now.free) l → ConcludesAs
            (behind self.now.filled frame.old (transmit_take grants.now window.now self.now.queue ring.old (drop self.now.filled frame.old) l))
            self.now.queue l result ring.new frame.new) }
    {
        let taken = self.take_rest(grants, window, ring, frame);
        take_words::write_take(&mut results[self.count as usize], taken);
        taken
    }

    // The numbers behind a take, with the place of the first free record then.
    pub fn advance(&mut self, taken: Taken, free: Option<usize>)
        requires { (self.old.count < 256) × (self.old.filled ≤ self.old.count * 4294967295) }
        ensures { (self.new ≡ advanced self.old taken free) × (self.new.filled ≤ self.new.count * 4294967295) }
    {
        self.queue = taken.queue;
        self.free = free;
        self.filled += total_of(taken.answer) as usize;
        self.count += 1;
    }
}
