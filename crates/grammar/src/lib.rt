// What the divider reads of a packet on a transmit ring. The functions are in `scanning` and `divider`.
#![tactic(auto)]

use netif::DataSlot;

// Why the slots that were read make no whole packet: they are a proper beginning of one, or begin none.
#[derive(Clone, Copy, PartialEq, Eq, Debug)]
pub enum Unfinished {
    Beginning,
    Misshapen,
}

// The extras of a packet: how many, and the last one's gso fields.
#[derive(Clone, Copy)]
pub struct Extras {
    pub count: u32,
    pub gso_size: u16,
    pub gso_type: u8,
}

impl Extras {
    // The extras of a packet that has none.
    pub const NONE: Extras = Extras {
        count: 0,
        gso_size: 0,
        gso_type: 0,
    };
}

// The later data slots of a packet: how many, and their sizes together.
#[derive(Clone, Copy)]
pub struct Later {
    pub count: u32,
    pub sum: u32,
}

// What is to be known of a whole packet: its first slot, its numbers of slots and of extras, the sizes of its later data slots
// together, and the last extra's gso fields.
#[derive(Clone, Copy)]
pub struct Outline {
    pub head: DataSlot,
    pub slots: u32,
    pub extras: u32,
    pub later_bytes: u32,
    pub gso_size: u16,
    pub gso_type: u8,
}

// The part of the window that a data slot names: its page, its offset there and its size.
#[derive(Clone, Copy)]
pub struct Part {
    pub page: u32,
    pub offset: u16,
    pub size: u16,
}

impl Part {
    // A part of no bytes.
    pub const NONE: Part = Part {
        page: 0,
        offset: 0,
        size: 0,
    };
}
