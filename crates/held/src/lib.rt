// Held packets: the records of packets that are taken and not yet replied to, in a list that the host lends.
#![tactic(auto)]

ghost use Rattle.std.specs.Prelude.{◌≡◌, not};
ghost use Rattle.held.specs.Records.{in_use, is_finished};

// The most records of a list.
pub const MOST_RECORDS: usize = 256;

// The statuses that a packet can be finished with, as 32-bit two's complement: okay 0, error -1 and dropped -2.
pub const OKAY: u32 = 0;

pub const ERROR: u32 = 4294967295;

pub const DROPPED: u32 = 4294967294;

// A held packet's ticket, which is the counter of its first slot; its slots, extras included, and how many of them are extras; its status, as
// 32-bit two's complement; and whether it is finished: 0 is no, anything else is yes. A record is free exactly if its slots are 0.
#[repr(C)]
#[derive(Clone, Copy)]
pub struct Held {
    pub ticket: u32,
    pub slots: u32,
    pub extras: u32,
    pub status: u32,
    pub finished: u32,
}

impl Held {
    // A zeroed record, which is free.
    pub const FREE: Held = Held {
        ticket: 0,
        slots: 0,
        extras: 0,
        status: 0,
        finished: 0,
    };

    // Whether the record is free.
    #[tactic(auto, unfolding(crate::specs::Records::in_use))]
    pub fn is_free(&self) -> bool
        ensures { result ≡ not (in_use self.now) }
    {
        self.slots == 0
    }

    // Whether the record's packet is finished.
    #[tactic(auto, unfolding(crate::specs::Records::is_finished))]
    pub fn is_finished(&self) -> bool
        ensures { result ≡ is_finished self.now }
    {
        self.finished != 0
    }
}
