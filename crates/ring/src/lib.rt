// The shared ring page: its header's counters, where slots stand, and what either side stores there. A ring's layout is that
// of its kind of slot, so that one function and one law serve every ring.
#![tactic(auto)]

ghost use Rattle.std.specs.Prelude.{◌≡◌, ◌+◌, ◌*◌, ◌<◌, ◌≤◌, ◌++◌, length, ℕ, List};
ghost use Rattle.words.specs.Word.{u16_bytes, splice};
ghost use Rattle.ring.specs.Ring.{page_size, req_prod, producer_at, wadd, posted, asking, notify, ProducerMoved, slot_place, slot_at};

// A ring page's size in bytes.
pub const PAGE_SIZE: usize = 4096;

// A ring page's bytes.
pub type Page = [u8; PAGE_SIZE];

const REQ_PROD: usize = 0;

const REQ_EVENT: usize = 4;

const RSP_PROD: usize = 8;

// How far behind a side's counter the other side's event stands.
const EVENT: usize = 4;

const SLOTS: usize = 64;

// The sides that publish on a ring: the guest its requests, the backend its replies.
#[derive(Clone, Copy)]
pub enum Side {
    Requests,
    Replies,
}

impl Side {
    // Where the side's counter stands.
    fn producer(self) -> usize
        ensures { result ≡ producer_at self }
    {
        match self {
            Side::Requests => REQ_PROD,
            Side::Replies => RSP_PROD,
        }
    }
}

// A kind of slot: the layout of its ring, and what a slot's bytes say.
pub trait RingSlot: Sized {
    // The width of a slot in bytes, and the number of slots.
    ghost WIDTH: { ℕ };

    ghost COUNT: { ℕ };

    const WIDTH: usize;

    const COUNT: u32;

    // What a slot's bytes say.
    ghost decoded: { List ℕ → Self };

    // There is a slot, a reply's two numbers fit in it, and all slots fit in a page.
    ghost laws: { (0 < COUNT) × (4 ≤ WIDTH) × (64 + WIDTH * COUNT ≤ page_size) };

    // A slot's bytes taken apart.
    fn decode(b: &[u8]) -> Self
        requires { length b.now ≡ WIDTH }
        ensures { result ≡ decoded b.now };
}

// The slots that the guest has ever posted: req_prod.
pub fn requests(page: &Page) -> u32
    ensures { result ≡ req_prod page.now }
{
    words::u32_at(page, REQ_PROD)
}

// The slots posted and not yet consumed, across the counter's wrap.
#[tactic(auto, unfolding(crate::specs::Ring::posted, crate::specs::Ring::wsub))]
pub fn posted(page: &Page, consumed: u32) -> u32
    ensures { result ≡ posted page.now consumed }
{
    requests(page).wrapping_sub(consumed)
}

// The counter k slots on.
#[tactic(auto, unfolding(crate::specs::Ring::wadd))]
pub fn ahead(n: u32, k: u32) -> u32
    ensures { result ≡ wadd n k }
{
    n.wrapping_add(k)
}

// Where slot n stands.
#[tactic(auto, using(crate::proofs::Ring::place_fits), unfolding(crate::specs::Ring::slot_place))]
pub fn place<S: RingSlot>(n: u32) -> usize
    ensures { result ≡ slot_place S.WIDTH S.COUNT n }
{
    SLOTS + S::WIDTH * ((n % S::COUNT) as usize)
}

// Slot n: a part of the page, not a copy.
#[tactic(auto, using(crate::proofs::Ring::place_fits), unfolding(crate::specs::Ring::slot_at))]
pub fn slot<S: RingSlot>(page: &Page, n: u32) -> &[u8]
    ensures { result.now ≡ slot_at S.WIDTH S.COUNT page.now n }
{
    let a = place::<S>(n);
    let b = a + S::WIDTH;
    &page[a..b]
}

// Slot n taken apart.
#[tactic(auto, using(crate::proofs::Ring::slot_length))]
pub fn read<S: RingSlot>(page: &Page, n: u32) -> S
    ensures { result ≡ S.decoded (slot_at S.WIDTH S.COUNT page.now n) }
{
    S::decode(slot::<S>(page, n))
}

// Stores the two numbers that a reply starts with over the first four bytes of slot n.
#[tactic(auto, using(crate::proofs::Ring::place_fits))]
pub fn reply<S: RingSlot>(page: &mut Page, n: u32, x: u16, y: u16)
    ensures { page.new ≡ splice page.old (slot_place S.WIDTH S.COUNT n) (u16_bytes x ++ u16_bytes y) }
{
    words::put_pair(page, place::<S>(n), x, y);
}

// Asks for an event at the next request: req_event becomes req_prod and one.
#[tactic(auto, unfolding(crate::specs::Ring::asking, crate::specs::Ring::with_req_event))]
pub fn ask_event(page: &mut Page)
    ensures { page.new ≡ asking page.old }
{
    let next = ahead(requests(page), 1);
    words::put_u32(page, REQ_EVENT, next);
}

// Whether the other side asked for an event between two counters of a side.
#[tactic(auto, using(crate::proofs::Facts::producer_low), unfolding(crate::specs::Ring::notify, crate::specs::Ring::wsub))]
fn notify(page: &Page, side: Side, old: u32, new: u32) -> bool
    ensures { result ≡ notify side page.now old new }
{
    let event = words::u32_at(page, side.producer() + EVENT);
    new.wrapping_sub(event) < new.wrapping_sub(old)
}

// Moves a side's counter behind what it has written, and tells whether to notify the other side.
#[tactic(auto, using(crate::proofs::Facts::notify_moved, crate::proofs::Facts::producer_low), unfolding(crate::specs::Ring::with_producer))]
pub fn publish(page: &mut Page, side: Side, old: u32, new: u32) -> bool
    ensures { ProducerMoved side page.old old new page.new result }
{
    words::put_u32(page, side.producer(), new);
    notify(page, side, old, new)
}
