// The guest's side of a transmit ring: what a frame posted as one packet asks for and answers. The functions are in `searching`,
// `encoding`, `posting`, `one_page` and `post`.
#![tactic(auto)]

// The gso fields that a packet carries.
#[derive(Clone, Copy, PartialEq, Eq, Debug)]
pub struct Gso {
    pub size: u16,
    pub kind: u8,
}

// A frame is posted: the slots of its packet, and whether to notify the backend.
#[derive(Clone, Copy, PartialEq, Eq, Debug)]
pub struct Posted {
    pub slots: u32,
    pub notify: bool,
}

// Why a frame is not posted.
#[derive(Clone, Copy, PartialEq, Eq, Debug)]
pub enum Refusal {
    BadPage,
    BadLength,
    NoSlots,
    BadPages,
    BadGso,
}

// Why references may not be used: one is not fit, or two places name one page.
#[derive(Clone, Copy, PartialEq, Eq, Debug)]
pub enum Unusable {
    Unfit,
    Same(u32, u32),
}
