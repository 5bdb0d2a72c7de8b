// The requests that a frame needs: judged, and then refused, or given the frame's pieces and replied to.
#![tactic(auto)]

ghost use Rattle.std.specs.Prelude.{◌≡◌, false, ◌≤◌, ℕ, List, length};
ghost use Rattle.netif.specs.Slot.{receive_slots};
ghost use Rattle.grant.specs.Lookup.{write_page};
ghost use Rattle.answer.specs.Report.{plain_summary};
ghost use Rattle.answer.specs.Effect.{Gives};
ghost use Rattle.receive.specs.Put.{needed, scatter, refuse, deliver, settle};
ghost use Rattle.receive.specs.Stages.{AllUsable, Judged};

use answer::{Fault, Outcome, Summary};
use netif::Request;
use ring::Page;

// The page that a request names, if its grant is fit to be written.
pub fn page_of(grants: &[u8], window: &[u8], request: Request) -> Option<u32>
    ensures { result ≡ write_page grants.now window.now request.gref }
{
    grant::fit_to_write(grants, window, request.gref)
}

// Whether the requests from a counter on are fit, one for each page of the table, or the first that is not. The table gets the
// pages that they name, so that a reference is read once.
fn judge(
    grants: &[u8],
    window: &[u8],
    ring: &Page,
    first: u32,
    pages: &mut [u32],
) -> Result<(), Fault>
    requires { length pages.old ≤ 16 }
    ensures { Judged grants.now window.now (receive_slots ring.now first (length pages.old))
        pages.new result }
{
    for (i, page) in pages.iter_mut().enumerate() {
        let request = ring::read::<Request>(ring, ring::ahead(first, i as u32));
        *page = page_of(grants, window, request).ok_or(Fault {
            cause: Fault::UNFIT,
            place: i as u32,
        })?;
    }
    Ok(())
}

// Consumes requests of which one is unfit: each gets an error. The window is not lent, so it stays.
pub fn refuse(ring: &mut Page, old: u32, count: u32, fault: Fault) -> Outcome
    requires { count ≤ 16 }
    ensures { (window : List ℕ) → Gives (refuse old ring.old window (receive_slots ring.old old count) fault.cause fault.place) result
        ring.new window }
{
    pieces::reply_errors(ring, old, count);
    answer::spoil(ring, old, count, fault)
}

// What is said of a frame of so many bytes in so many pieces.
pub fn summary_of(slots: u32, total: u32) -> Summary
    ensures { result ≡ plain_summary slots total }
{
    Summary {
        slots,
        total,
        checksum_blank: false,
        data_validated: false,
        gso_size: 0,
        gso_type: 0,
    }
}

// Consumes requests that are all fit: the pages that they name get the pieces of the frame.
fn deliver(window: &mut [u8], ring: &mut Page, old: u32, pages: &[u32], frame: &[u8]) -> Outcome
    requires { (length frame.now ≤ 65535)
        × (length pages.now ≡ needed (length frame.now))
        × AllUsable (length window.old) pages.now }
    ensures { Gives
        (deliver old ring.old window.old (receive_slots ring.old old (length pages.now)) pages.now frame.now)
        result ring.new window.new }
{
    let count = pages.len() as u32;
    pieces::scatter(window, pages, frame);
    pieces::reply_pieces(ring, old, count, frame);
    answer::finish(ring, old, summary_of(count, frame.len() as u32))
}

// Consumes the requests that a frame needs. All of them are tested before anything is written.
pub fn settle(
    grants: &[u8],
    window: &mut [u8],
    ring: &mut Page,
    old: u32,
    count: u32,
    frame: &[u8],
) -> Outcome
    requires { (length frame.now ≤ 65535) × (count ≡ needed (length frame.now)) }
    ensures { Gives
        (settle grants.now old ring.old window.old (receive_slots ring.old old count) frame.now)
        result ring.new window.new }
{
    let mut table = [0u32; pieces::MOST];
    let pages = &mut table[..count as usize];
    match judge(grants, window, ring, old, pages) {
        Err(fault) => refuse(ring, old, count, fault),
        Ok(()) => deliver(window, ring, old, pages, frame),
    }
}
