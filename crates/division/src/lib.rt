// A run of slots in memory, divided into its leading packets and a rest: what a reader of it answers. There are two, `slow_reader`,
// which asks the grammar length by length, and `fast_reader`, which is the library's divider. They share the decoding of slots and no
// other code.
#![tactic(auto)]

#[cfg(test)]
mod tests;

ghost use Rattle.std.specs.Prelude.{◌≡◌, Some};
ghost use Rattle.division.specs.Answer.{number_of, name_of, reason_of};

use std::fmt;

// What the rest of a run is: nothing, a proper beginning of a packet, or the beginning of none.
#[derive(Clone, Copy, PartialEq, Eq)]
pub enum Ending {
    Empty,
    Waiting,
    Misshapen,
}

// Document 01's number of a rest.
impl From<Ending> for u32 {
    ghost from_gives = { λ ending n. n ≡ number_of ending };

    fn from(ending: Ending) -> u32 {
        match ending {
            Ending::Empty => 4,
            Ending::Waiting => 6,
            Ending::Misshapen => 5,
        }
    }
}

// A rest is printed as its word.
impl fmt::Display for Ending {
    ghost output = { λ ending. Some (name_of ending) };

    fn fmt<W: fmt::Write>(&self, f: &mut fmt::Formatter<W>) -> fmt::Result {
        match self {
            Ending::Empty => write!(f, "empty"),
            Ending::Waiting => write!(f, "waiting"),
            Ending::Misshapen => write!(f, "misshapen"),
        }
    }
}

// A division: how many packets were cut off, and what the rest is. How many slots each packet has stands in a table.
// The table is the caller's, with its count here: `DividedAs` promises that its places behind the cuts stay.
#[derive(Clone, Copy, PartialEq, Eq)]
pub struct Cuts {
    pub count: usize,
    pub ending: Ending,
}

// Why bytes that were lent as a run were not divided.
#[derive(Clone, Copy, PartialEq, Eq)]
pub enum Refused {
    // The bytes are no whole number of slots.
    Uneven,
    // There are more than 256 slots.
    TooLong,
}

// A refusal is printed as its reason.
impl fmt::Display for Refused {
    ghost output = { λ refused. Some (reason_of refused) };

    fn fmt<W: fmt::Write>(&self, f: &mut fmt::Formatter<W>) -> fmt::Result {
        match self {
            Refused::Uneven => write!(f, "uneven"),
            Refused::TooLong => write!(f, "too-long"),
        }
    }
}
