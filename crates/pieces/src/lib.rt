// A frame in pieces: where they are written, and the replies to the requests that got them.
#![tactic(auto)]

ghost use Rattle.std.specs.Prelude.{◌≡◌, ◌+◌, ◌*◌, ◌≤◌, length, take};
ghost use Rattle.words.specs.Word.{splice};
ghost use Rattle.ring.specs.Ring.{slot_place, with_slots};
ghost use Rattle.netif.specs.Slot.{request_width, request_count, request_ident, receive_reply, receive_slot, receive_slots};
ghost use Rattle.receive.specs.Put.{piece_size, reply_flags, scatter, piece_replies, error_replies};
ghost use Rattle.receive.specs.Stages.{AllUsable};

use lengths::PIECE;
use netif::{ERROR, Request};
use ring::Page;

// The pieces of the longest frame.
pub const MOST: usize = 16;

// Where a reply has its flags and its status.
const FLAGS: usize = 4;

// The flag of a reply that another follows.
const MORE: u16 = 4;

// Writes the pieces of a frame to pages, in order. All but the last are whole pages: of these the compiler knows the length.
pub fn scatter(window: &mut [u8], pages: &[u32], frame: &[u8])
    requires { (piece_size * length pages.now ≤ length frame.now + 4095)
        × (length frame.now ≤ piece_size * length pages.now)
        × AllUsable (length window.old) pages.now }
    ensures { window.new ≡ scatter window.old pages.now frame.now }
{
    let Some((last, whole)) = pages.split_last() else {
        return;
    };
    for (i, page) in whole.iter().enumerate() {
        let start = PIECE * i;
        grant::write(window, *page, &frame[start..start + PIECE]);
    }
    grant::write(window, *last, &frame[PIECE * whole.len()..]);
}

// The flags of a reply, by whether others follow it.
fn reply_flags(more: bool) -> u16
    ensures { result ≡ reply_flags more }
{
    if more { MORE } else { 0 }
}

// Replies to the request at slot n: its own id, offset 0, flags and status.
pub fn reply(ring: &mut Page, n: u32, flags: u16, status: u16)
    ensures { ring.new ≡ splice ring.old (slot_place request_width request_count n)
        (receive_reply (request_ident (receive_slot ring.old n)) 0 flags status) }
{
    let at = ring::place::<Request>(n);
    let id = words::u16_at(ring, at);
    ring::reply::<Request>(ring, n, id, 0);
    words::put_pair(ring, at + FLAGS, flags, status);
}

// Replies to the requests that got the pieces of a frame.
pub fn reply_pieces(ring: &mut Page, first: u32, count: u32, frame: &[u8])
    requires { (count ≤ 16) × (piece_size * count ≤ length frame.now + 4095) }
    ensures { ring.new ≡ with_slots request_width request_count ring.old first
        (piece_replies (receive_slots ring.old first count) frame.now) }
{
    for i in 0..count {
        let status = lengths::piece_of(frame.len(), i as usize) as u16;
        reply(
            ring,
            ring::ahead(first, i),
            reply_flags(i + 1 < count),
            status,
        );
    }
}

// Replies to requests of which one is unfit. The loop is that of `reply_pieces` too; what it does differs in all but the counter.
pub fn reply_errors(ring: &mut Page, first: u32, count: u32)
    requires { count ≤ 16 }
    ensures { ring.new ≡ with_slots request_width request_count ring.old first
        (error_replies (receive_slots ring.old first count)) }
{
    for i in 0..count {
        reply(ring, ring::ahead(first, i), 0, ERROR);
    }
}
