// The receive call: a frame goes into the pages that the guest's requests name.
#![tactic(auto)]

ghost use Rattle.std.specs.Prelude.{◌≡◌, false, ◌-◌, length};
ghost use Rattle.answer.specs.Report.{go_on};
ghost use Rattle.answer.specs.Effect.{Gives};
ghost use Rattle.receive.specs.Put.{bad_length, needed, settle, receive_put};

use answer::{Answer, Outcome, Queue};
use netif::Request;
use ring::{Page, RingSlot};

// Puts a frame of a good length into the pages of the requests at the counter of a queue that is not halted.
fn put_running(
    first: u32,
    grants: &[u8],
    window: &mut [u8],
    ring: &mut Page,
    frame: &[u8],
) -> Outcome
    requires { (bad_length (length frame.now) ≡ false) }
    ensures { Gives
        (receive_put grants.now (go_on first) ring.old window.old frame.now) result
        ring.new window.new }
{
    let posted = ring::posted(ring, first);
    if Request::COUNT < posted {
        return answer::halt(Answer::Overflow, first);
    }
    let count = lengths::needed(frame.len());
    if posted < count {
        return answer::ask(Answer::NoBuffers, first, ring);
    }
    if count == 1 {
        return one_piece::settle_one(grants, window, ring, first, frame);
    }
    delivering::settle(grants, window, ring, first, count, frame)
}

// Puts a frame into the pages of the requests at the counter.
pub fn put(queue: Queue, grants: &[u8], window: &mut [u8], ring: &mut [u8], frame: &[u8]) -> Outcome
    ensures { Gives
        (receive_put grants.now queue ring.old window.old frame.now) result
        ring.new window.new }
{
    let Some(ring) = ring.as_mut_array::<{ ring::PAGE_SIZE }>() else {
        return answer::keep(Answer::BadPage, queue);
    };
    if lengths::bad_length(frame.len()) {
        return answer::keep(Answer::BadLength, queue);
    }
    if queue.halted {
        return answer::keep(Answer::HaltedAlready, queue);
    }
    put_running(queue.consumed, grants, window, ring, frame)
}
