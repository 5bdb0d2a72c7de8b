// What a take makes of what stands at the counter: taken, waited for or refused.
#![tactic(auto)]

ghost use Rattle.std.specs.Prelude.{◌≡◌, ◌≤◌, true, List, length};
ghost use Rattle.ring.specs.Ring.{posted};
ghost use Rattle.held.specs.declared.Held.{Held};
ghost use Rattle.transmit.specs.Take.{go_on, overflow, take_front, transmit_take};
ghost use Rattle.transmit.specs.Stages.{Lent, Found, Gives, ComesToOne};

use grammar::{Part, Unfinished};
use netif::DataSlot;
use ring::{Page, RingSlot};
use transmit::{Answer, Queue};

// Slots are posted: what stands at their front is taken, waited for or refused.
fn take_front(
    first: u32,
    replied: u32,
    full: bool,
    count: u32,
    grants: &[u8],
    window: &[u8],
    ring: &mut Page,
    frame: &mut [u8],
) -> Answer
    requires { (count ≡ posted ring.old first) × (1 ≤ count) × (count ≤ 256) }
    ensures { (l : List Held) → Lent first replied full l → Gives
        (take_front grants.now window.now (go_on first replied) ring.old frame.old l)
        (go_on first replied) l result ring.new frame.new }
{
    if divider::is_alone(ring, first) {
        return alone::settle_alone(first, replied, full, grants, window, ring, frame);
    }
    let mut parts = [Part::NONE; 18];
    match divider::read(ring, first, count, &mut parts) {
        Err(Unfinished::Misshapen) => Answer::Misshapen,
        Err(Unfinished::Beginning) => {
            ring::ask_event(ring);
            Answer::Waiting
        }
        Ok(o) => settling::settle(
            first, replied, full, o, &mut parts, grants, window, ring, frame,
        ),
    }
}

// Whether more than 256 slots are posted and not replied to, or fewer than are held.
#[tactic(auto, unfolding(transmit::specs::Take::overflow, ring::specs::Ring::posted, ring::specs::Ring::wsub, held::specs::Valid::between))]
fn overflows(consumed: u32, replied: u32, ring: &Page) -> bool
    ensures { result ≡ overflow consumed replied ring.now }
{
    let unanswered = ring::posted(ring, replied);
    DataSlot::COUNT < unanswered || unanswered < consumed.wrapping_sub(replied)
}

// Takes the packet at the counter, if a whole one stands there; told of the list of records whether it is valid and whether it is full.
pub fn decide(
    queue: Queue,
    sound: bool,
    full: bool,
    grants: &[u8],
    window: &[u8],
    ring: &mut [u8],
    frame: &mut [u8],
) -> Answer
    ensures { (l : List Held) → Found queue sound full l → Gives
        (transmit_take grants.now window.now queue ring.old frame.old l)
        queue l result ring.new frame.new }
{
    let Some(ring) = ring.as_mut_array::<{ ring::PAGE_SIZE }>() else {
        return Answer::BadPage;
    };
    if !sound {
        return Answer::BadRecords;
    }
    if queue.halted {
        return Answer::HaltedAlready;
    }
    if overflows(queue.consumed, queue.replied, ring) {
        return Answer::Overflow;
    }
    let posted = ring::posted(ring, queue.consumed);
    if posted == 0 {
        ring::ask_event(ring);
        return Answer::Empty;
    }
    take_front(
        queue.consumed,
        queue.replied,
        full,
        posted,
        grants,
        window,
        ring,
        frame,
    )
}

// Whether a take on a ring page comes to a packet of one slot, and a record is free for it.
fn page_comes_to_one(queue: Queue, sound: bool, full: bool, ring: &Page) -> bool
    ensures { result ≡ true → ComesToOne queue sound full ring.now }
{
    sound
        && !full
        && !queue.halted
        && !overflows(queue.consumed, queue.replied, ring)
        && ring::posted(ring, queue.consumed) != 0
        && divider::is_alone(ring, queue.consumed)
}

// Whether a take comes to a packet of one slot, and a record is free for it; told of the list of records as a take is.
pub fn comes_to_one(queue: Queue, sound: bool, full: bool, ring: &[u8]) -> bool
    ensures { result ≡ true → ComesToOne queue sound full ring.now }
{
    match ring.as_array::<{ ring::PAGE_SIZE }>() {
        Some(page) => page_comes_to_one(queue, sound, full, page),
        None => false,
    }
}
