// What a take comes to, by what was found of its list: the answer, the queue behind it and the record to keep.
#![tactic(auto)]

ghost use Rattle.std.specs.Prelude.{◌≡◌, List, cond, ℕ, is_some, is_none};
ghost use Rattle.ring.specs.Ring.{wadd};
ghost use Rattle.held.specs.declared.Held.{Held};
ghost use Rattle.held.specs.Records.{free, ended, failed};
ghost use Rattle.noting.specs.Survey.{free_in};
ghost use Rattle.transmit.specs.Take.{halt, transmit_take};
ghost use Rattle.transmit.specs.Stages.{none_held, queue_after, Found};
ghost use Rattle.concluding.specs.Taken.{record_taken, TakenFor, Concludes, ticket_in};

use held::Held;
use noting::Tally;
use transmit::{Answer, Queue};

// What a take comes to: its answer, the queue that it leaves, and the record of the packet that it takes, if it takes one, with the ticket
// in it, else 0.
#[derive(Clone, Copy)]
pub struct Taken {
    pub answer: Answer,
    pub queue: Queue,
    pub ticket: u32,
    pub record: Option<Held>,
}

// The queue, halted.
fn halted(queue: Queue) -> Queue
    ensures { result ≡ halt queue }
{
    Queue {
        halted: true,
        ..queue
    }
}

// The counter of replies sent behind a spoiled packet of so many slots, which leaves at once if none is held before it.
fn replied_after(queue: Queue, slots: u32) -> u32
    ensures { result ≡ cond (none_held queue) (wadd queue.consumed slots) queue.replied }
{
    if queue.consumed == queue.replied {
        return ring::ahead(queue.consumed, slots);
    }
    queue.replied
}

// The queue that a take leaves.
fn queue_after(queue: Queue, answer: Answer) -> Queue
    ensures { result ≡ queue_after queue answer }
{
    match answer {
        Answer::Done { summary, .. } => Queue {
            consumed: ring::ahead(queue.consumed, summary.slots),
            ..queue
        },
        Answer::Spoiled { slots, .. } => Queue {
            consumed: ring::ahead(queue.consumed, slots),
            replied: replied_after(queue, slots),
            ..queue
        },
        Answer::Overflow | Answer::Misshapen => halted(queue),
        _ => queue,
    }
}

// The record of a spoiled packet; zeroed if none is held before it, as it left at once.
fn spoiled_record(queue: Queue, slots: u32, extras: u32) -> Held
    ensures { result ≡ cond (none_held queue) free (ended queue.consumed slots extras failed) }
{
    if queue.consumed == queue.replied {
        return Held::FREE;
    }
    Held {
        ticket: queue.consumed,
        slots,
        extras,
        status: held::ERROR,
        finished: 1,
    }
}

// The record that a packet takes; none where nothing is taken.
fn record_of(queue: Queue, answer: Answer) -> Option<Held>
    ensures { result ≡ record_taken queue answer }
{
    match answer {
        Answer::Done { summary, extras } => Some(Held {
            ticket: queue.consumed,
            slots: summary.slots,
            extras,
            status: held::OKAY,
            finished: 0,
        }),
        Answer::Spoiled { slots, extras, .. } => Some(spoiled_record(queue, slots, extras)),
        _ => None,
    }
}

// The ticket in a record, 0 where there is none.
fn ticket_in(kept: Option<Held>) -> u32
    ensures { result ≡ ticket_in kept }
{
    kept.map_or(0, |held| held.ticket)
}

// What a take with this answer comes to.
pub fn taken_of(queue: Queue, answer: Answer) -> Taken
    ensures { TakenFor queue answer result }
{
    let record = record_of(queue, answer);
    Taken {
        answer,
        queue: queue_after(queue, answer),
        ticket: ticket_in(record),
        record,
    }
}

// Takes the packet at the counter, if a whole one stands there, by what was found of the list; its record is not stored yet.
pub fn conclude(
    queue: Queue,
    found: Option<Tally>,
    grants: &[u8],
    window: &[u8],
    ring: &mut [u8],
    frame: &mut [u8],
) -> Taken
    ensures { (l : List Held) → Found queue (is_some found) (is_none (free_in found)) l → Concludes
        (transmit_take grants.now window.now queue ring.old frame.old l)
        queue l result ring.new frame.new }
{
    let full = noting::free_in(found).is_none();
    let answer = deciding::decide(queue, found.is_some(), full, grants, window, ring, frame);
    taken_of(queue, answer)
}
