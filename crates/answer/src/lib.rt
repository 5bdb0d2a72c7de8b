// What a call answers, what it leaves of a queue, and how it ends.
#![tactic(auto)]

ghost use Rattle.std.specs.Prelude.{◌≡◌, List, ℕ};
ghost use Rattle.ring.specs.Ring.{wadd, asking, ProducerMoved};
ghost use Rattle.ring.specs.declared.Side.TheVariants.{Replies};
ghost use Rattle.answer.specs.Report.{halt, go_on, spoiled_report, done_report};
ghost use Rattle.answer.specs.Effect.{consume, Gives};

use ring::{Page, Side};

// A ring's counter of slots consumed, and its halted mark.
#[derive(Clone, Copy, PartialEq, Eq, Debug)]
pub struct Queue {
    pub consumed: u32,
    pub halted: bool,
}

// What a done call says of the packet or the frame that it served.
#[derive(Clone, Copy, PartialEq, Eq, Debug)]
pub struct Summary {
    pub slots: u32,
    pub total: u32,
    pub checksum_blank: bool,
    pub data_validated: bool,
    pub gso_size: u16,
    pub gso_type: u8,
}

// What a call answers. This is document 01's list and not a Result: a spoiled frame consumes its requests as a done one does.
#[derive(Clone, Copy, PartialEq, Eq, Debug)]
pub enum Answer {
    Done {
        summary: Summary,
        notify: bool,
    },
    BadPage,
    HaltedAlready,
    Overflow,
    Spoiled {
        cause: u8,
        place: u32,
        slots: u32,
        notify: bool,
    },
    BadLength,
    NoBuffers,
}

// The answer of a call, and the queue as it leaves it.
#[derive(Clone, Copy, PartialEq, Eq, Debug)]
pub struct Outcome {
    pub answer: Answer,
    pub queue: Queue,
}

// Why a packet or the requests for a frame are not good: the first cause found, and its place.
#[derive(Clone, Copy, PartialEq, Eq, Debug)]
pub struct Fault {
    pub cause: u8,
    pub place: u32,
}

// Document 01's numbers of the causes for 7. The number 2 is reserved.
impl Fault {
    pub const SHORT: u8 = 1;

    pub const OVERRUN: u8 = 3;

    pub const UNFIT: u8 = 4;

    pub const OUTSIDE: u8 = 5;

    pub const GSO: u8 = 6;
}

// An answer that leaves all as it was.
pub fn keep(answer: Answer, queue: Queue) -> Outcome
    ensures { result ≡ record { answer = answer; queue = queue } }
{
    Outcome { answer, queue }
}

// An answer that halts the queue at a counter.
pub fn halt(answer: Answer, consumed: u32) -> Outcome
    ensures { result ≡ record { answer = answer; queue = halt (go_on consumed) } }
{
    keep(
        answer,
        Queue {
            consumed,
            halted: true,
        },
    )
}

// An answer for which slots are missing at a counter: asks for an event.
pub fn ask(answer: Answer, consumed: u32, ring: &mut Page) -> Outcome
    ensures { (result ≡ record { answer = answer; queue = go_on consumed }) × (ring.new ≡ asking ring.old) }
{
    ring::ask_event(ring);
    keep(answer, go_on(consumed))
}

// A queue that goes on from a counter.
fn go_on(consumed: u32) -> Queue
    ensures { result ≡ go_on consumed }
{
    Queue {
        consumed,
        halted: false,
    }
}

// Moves rsp_prod behind slots that have their replies. The queue that goes on there, and whether to notify.
fn consume(ring: &mut Page, old: u32, slots: u32) -> (Queue, bool)
    ensures { (result.0 ≡ go_on (wadd old slots)) × ProducerMoved Replies ring.old old (wadd old slots) ring.new result.1 }
{
    let new = ring::ahead(old, slots);
    let notify = ring::publish(ring, Side::Replies, old, new);
    (go_on(new), notify)
}

// Ends a call on slots that are bad and have their replies: moves rsp_prod behind them.
pub fn spoil(ring: &mut Page, old: u32, slots: u32, fault: Fault) -> Outcome
    ensures { (buffer : List ℕ) → Gives (consume (spoiled_report fault.cause fault.place slots) old slots ring.old buffer) result ring.new
        buffer }
{
    let (queue, notify) = consume(ring, old, slots);
    let answer = Answer::Spoiled {
        cause: fault.cause,
        place: fault.place,
        slots,
        notify,
    };
    keep(answer, queue)
}

// Ends a call on slots that were served and have their replies: moves rsp_prod behind them.
pub fn finish(ring: &mut Page, old: u32, summary: Summary) -> Outcome
    ensures { (buffer : List ℕ) → Gives (consume (done_report summary) old summary.slots ring.old buffer) result ring.new
        buffer }
{
    let (queue, notify) = consume(ring, old, summary.slots);
    keep(Answer::Done { summary, notify }, queue)
}
