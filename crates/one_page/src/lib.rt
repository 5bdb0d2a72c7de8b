// A frame of one page, posted with no loop and no table. It promises what `post` does of more pages, and is a path of its own for speed.
#![tactic(auto)]

ghost use Rattle.std.specs.Prelude.{◌≡◌, false, length};
ghost use Rattle.receive.specs.Put.{bad_length, needed};
ghost use Rattle.frontend.specs.Post.{bad_gso, post};
ghost use Rattle.frontend.specs.Stages.{Posts};

use frontend::{Gso, Posted, Refusal};
use ring::Page;

// Posts a frame of one page.
pub fn post_one(
    read: u32,
    gso: Option<Gso>,
    grants: &[u8],
    window: &mut [u8],
    references: &[u32],
    ring: &mut Page,
    frame: &[u8],
) -> Result<Posted, Refusal>
    requires { (bad_length (length frame.now) ≡ false)
        × (bad_gso gso ≡ false)
        × (needed (length frame.now) ≡ 1) }
    ensures { Posts
        (post grants.now ring.old window.old read gso references.now frame.now)
        result ring.new window.new }
{
    let reference = *references.first().ok_or(Refusal::BadPages)?;
    let page = grant::fit_to_write(grants, window, reference).ok_or(Refusal::BadPages)?;
    let slots = 1 + posting::extras_of(gso);
    if posting::free(ring, read) < slots {
        return Err(Refusal::NoSlots);
    }
    grant::write(window, page, frame);
    let notify = posting::put_packet(ring, gso, &references[..1], frame);
    Ok(Posted { slots, notify })
}
