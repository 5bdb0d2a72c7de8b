// The one request that a frame of one piece needs: judged, and then refused, or given the frame and replied to, with no loop
// and no table. It promises what `delivering` does, and is a path of its own for speed.
#![tactic(auto)]

ghost use Rattle.std.specs.Prelude.{◌≡◌, ◌+◌, ◌*◌, ◌≤◌, [], ◌∷◌, length};
ghost use Rattle.netif.specs.Slot.{receive_slots};
ghost use Rattle.answer.specs.Effect.{Gives};
ghost use Rattle.receive.specs.Put.{piece_size, deliver, settle};

use answer::{Fault, Outcome};
use netif::Request;
use ring::Page;

// Consumes one request that is fit: its page gets the frame, which is one piece.
fn deliver_one(window: &mut [u8], ring: &mut Page, old: u32, page: u32, frame: &[u8]) -> Outcome
    requires { (length frame.now ≤ piece_size)
        × (4096 * page + 4096 ≤ length window.old) }
    ensures { Gives
        (deliver old ring.old window.old (receive_slots ring.old old 1) (page ∷ []) frame.now)
        result ring.new window.new }
{
    grant::write(window, page, frame);
    pieces::reply(ring, old, 0, frame.len() as u16);
    answer::finish(ring, old, delivering::summary_of(1, frame.len() as u32))
}

// Consumes the one request that a frame of one piece needs.
pub fn settle_one(
    grants: &[u8],
    window: &mut [u8],
    ring: &mut Page,
    old: u32,
    frame: &[u8],
) -> Outcome
    requires { length frame.now ≤ piece_size }
    ensures { Gives
        (settle grants.now old ring.old window.old (receive_slots ring.old old 1) frame.now)
        result ring.new window.new }
{
    match delivering::page_of(grants, window, ring::read::<Request>(ring, old)) {
        None => delivering::refuse(
            ring,
            old,
            1,
            Fault {
                cause: Fault::UNFIT,
                place: 0,
            },
        ),
        Some(page) => deliver_one(window, ring, old, page, frame),
    }
}
