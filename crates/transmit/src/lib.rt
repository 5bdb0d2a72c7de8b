// One take and one finish on a transmit ring: definitions and laws. The functions are in `replying`, `settling`, `alone`, `taking` and
// `finishing`; what holds of sequences of calls is in `sequences`.
#![tactic(auto)]

use answer::Summary;

// A transmit ring's counters of slots consumed and of replies sent, and its halted mark.
#[derive(Clone, Copy)]
pub struct Queue {
    pub consumed: u32,
    pub replied: u32,
    pub halted: bool,
}

// What a take answers; of a packet that is taken also how many of its slots are extras, for its record. These are document 01's answers in one
// list and not a Result: a done packet and a spoiled one both take slots and a record.
#[derive(Clone, Copy)]
pub enum Answer {
    Done {
        summary: Summary,
        extras: u32,
    },
    BadPage,
    HaltedAlready,
    Overflow,
    Empty,
    Misshapen,
    Waiting,
    Spoiled {
        cause: u8,
        place: u32,
        slots: u32,
        extras: u32,
        notify: bool,
    },
    NoRoom,
    NoRecord,
    BadRecords,
}
