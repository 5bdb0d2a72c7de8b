// One post: a frame laid into granted pages and posted on a transmit ring as one packet.
#![tactic(auto)]

ghost use Rattle.std.specs.Prelude.{◌≡◌, false, length};
ghost use Rattle.receive.specs.Put.{bad_length, needed};
ghost use Rattle.frontend.specs.Post.{bad_gso, post};
ghost use Rattle.frontend.specs.Stages.{Posts};

use frontend::{Gso, Posted, Refusal};
use ring::Page;

// Whether cause 6 would refuse it.
#[tactic(auto, using(frontend::proofs::Calls::bad_is_err), unfolding(frontend::specs::Post::bad_gso))]
fn bad_gso(gso: Option<Gso>) -> bool
    ensures { result ≡ bad_gso gso }
{
    match gso {
        None => false,
        Some(gso) => causes::judge_gso(1, gso.size, gso.kind).is_err(),
    }
}

// Posts a frame of so many pages. All references are tested before anything is written.
fn post_pages(
    read: u32,
    gso: Option<Gso>,
    grants: &[u8],
    window: &mut [u8],
    references: &[u32],
    count: u32,
    ring: &mut Page,
    frame: &[u8],
) -> Result<Posted, Refusal>
    requires { (bad_length (length frame.now) ≡ false)
        × (bad_gso gso ≡ false)
        × (count ≡ needed (length frame.now)) }
    ensures { Posts
        (post grants.now ring.old window.old read gso references.now frame.now)
        result ring.new window.new }
{
    let mut pages = [0u32; pieces::MOST];
    if searching::bad_pages(grants, window, references, count, &mut pages) {
        return Err(Refusal::BadPages);
    }
    let slots = count + posting::extras_of(gso);
    if posting::free(ring, read) < slots {
        return Err(Refusal::NoSlots);
    }
    let used = count as usize;
    pieces::scatter(window, &pages[..used], frame);
    let notify = posting::put_packet(ring, gso, &references[..used], frame);
    Ok(Posted { slots, notify })
}

// Lays a frame into the pages that references name, and posts it as one packet.
pub fn post(
    read: u32,
    gso: Option<Gso>,
    grants: &[u8],
    window: &mut [u8],
    references: &[u32],
    ring: &mut [u8],
    frame: &[u8],
) -> Result<Posted, Refusal>
    ensures { Posts
        (post grants.now ring.old window.old read gso references.now frame.now)
        result ring.new window.new }
{
    let ring = ring
        .as_mut_array::<{ ring::PAGE_SIZE }>()
        .ok_or(Refusal::BadPage)?;
    if lengths::bad_length(frame.len()) {
        return Err(Refusal::BadLength);
    }
    if bad_gso(gso) {
        return Err(Refusal::BadGso);
    }
    let count = lengths::needed(frame.len());
    if count == 1 {
        return one_page::post_one(read, gso, grants, window, references, ring, frame);
    }
    post_pages(read, gso, grants, window, references, count, ring, frame)
}
