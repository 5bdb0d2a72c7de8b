// The tally and the index that an inspection of held packets makes: one record noted in both, and the walk along the index.
#![tactic(auto)]

ghost use Rattle.std.specs.Prelude.{◌≡◌, ◌+◌, ◌*◌, ◌/◌, ◌%◌, ◌^◌, ◌<◌, ◌≤◌, ◌==◌, ℕ, List, Option, not, replicate, slice_index, slice_set};
ghost use Rattle.noting.specs.Survey.{within_limits, made, unread, noted, chain_of, confirmed, free_in};

use held::{Held, MOST_RECORDS};
use std::marker::Model;

const MOST_SLOTS: u32 = 256;

// What is found of a list that is valid, as far as it is looked at: the place of its first free record, if one is free, and the slots that are held.
#[derive(Clone, Copy)]
pub struct Tally {
    pub free: Option<usize>,
    pub slots: u32,
}

// The records of a list by their offsets behind the counter of replies sent. An entry is the record's slots * 256 + its place, and 0 where none is
// held: one number, since an array of structs would be longer to clear.
#[derive(Drop)]
pub struct Index {
    entries: [u16; 256],
}

impl Model for Index {
    ghost Value = { List ℕ };

    ghost view = { λ i. i.entries };
}

impl Index {
    // An index of no records.
    pub fn new() -> Index
        ensures { result ≡ replicate 256 0 }
    {
        Index { entries: [0; 256] }
    }

    // Whether a record is held at an offset.
    pub fn holds(&self, offset: u32) -> bool
        requires { offset < 256 }
        ensures { result ≡ not (slice_index self.now offset == 0) }
    {
        self.entries[offset as usize] != 0
    }

    // The place of the record that is held at an offset.
    pub fn place(&self, offset: u32) -> usize
        requires { offset < 256 }
        ensures { result ≡ slice_index self.now offset % 256 }
    {
        self.entries[offset as usize] as usize % 256
    }

    // The slots of the record that is held at an offset; none where none is held.
    fn slots(&self, offset: u32) -> u32
        requires { offset < 256 }
        ensures value { result ≡ slice_index self.now offset / 256 }
        ensures few { result < 256 }
    {
        self.entries[offset as usize] as u32 / 256
    }

    // Enters a record that is held at an offset.
    fn enter(&mut self, offset: u32, slots: u32, place: usize)
        requires { (offset < 256) × (slots < 256) × (place < 256) }
        ensures { self.new ≡ slice_set self.old offset (slots * 256 + place) }
    {
        self.entries[offset as usize] = (slots as usize * 256 + place) as u16;
    }

    // Whether a record begins at the oldest slot, and each further one where the one before ends, up to the last slot.
    fn chain(&self, between: u32) -> bool
        requires { between ≤ 256 }
        ensures { result ≡ chain_of self.now between }
    {
        // Counted by hand: a step is as long as the record there has slots.
        let mut offset = 0;
        while offset < between {
            let slots = self.slots(offset);
            if slots == 0 {
                return false;
            }
            offset += slots;
        }
        true
    }
}

// Whether a list has at most 256 records, and at most 256 slots lie between the counters.
pub fn within_limits(records: usize, slots: u32) -> bool
    ensures { result ≡ within_limits records slots }
{
    records <= MOST_RECORDS && slots <= MOST_SLOTS
}

// The place of the first free record of a list, if it is valid and one is free.
pub fn free_in(found: Option<Tally>) -> Option<usize>
    ensures { result ≡ free_in found }
{
    found?.free
}

impl Tally {
    // A tally of no records.
    pub fn new() -> Tally
        ensures { result ≡ unread }
    {
        Tally {
            free: None,
            slots: 0,
        }
    }

    // Notes the record at place i, and enters it in the index if it is held. A second one at an offset, and one that does not fit, is refused.
    pub fn note(
        self,
        i: usize,
        h: Held,
        replied: u32,
        between: u32,
        index: &mut Index,
    ) -> Option<Tally>
        requires { (self.slots ≤ 5632) × (i < 256) × (between ≤ 256) }
        ensures notes { made result index.new ≡ noted i h replied between self index.old }
        ensures word { h.ticket < 2 ^ 32 }
    {
        if h.is_free() {
            return Some(Tally {
                free: self.free.or(Some(i)),
                ..self
            });
        }
        let offset = h.ticket.wrapping_sub(replied);
        if !fitting::fits_at(h, offset, between) || index.holds(offset) {
            return None;
        }
        index.enter(offset, h.slots, i);
        Some(Tally {
            slots: self.slots + h.slots,
            ..self
        })
    }

    // The tally, if its records cover the slots between the counters, each once.
    pub fn confirm(self, index: &Index, between: u32) -> Option<Tally>
        requires { between ≤ 256 }
        ensures { result ≡ confirmed self index.now between }
    {
        if self.slots == between && index.chain(between) {
            Some(self)
        } else {
            None
        }
    }
}
