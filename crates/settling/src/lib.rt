// A whole packet at the counter: refused, or gathered and accepted, if a record is free.
#![tactic(auto)]

ghost use Rattle.std.specs.Prelude.{◌≡◌, List, Bool, ℕ, ◌≤◌, ◌<◌, length};
ghost use Rattle.netif.specs.Slot.{Slot};
ghost use Rattle.grammar.specs.Packet.{later_of};
ghost use Rattle.grammar.specs.Stages.{outline_of, sizes_in};
ghost use Rattle.packet.specs.Stages.{SizesOf, packet_at, Ready};
ghost use Rattle.held.specs.declared.Held.{Held};
ghost use Rattle.transmit.specs.declared.Answer.TheVariants.{Done};
ghost use Rattle.transmit.specs.Take.{go_on, summary_of, take_packet};
ghost use Rattle.transmit.specs.Stages.{Lent, Gives, RepliedNow, take_whole};

use answer::{Fault, Summary};
use grammar::{Outline, Part};
use netif::ERROR;
use ring::{Page, Side};
use transmit::Answer;

// The replies to a spoiled packet leave at once, and rsp_prod goes behind them, if no packet is held before it. Whether to notify.
fn reply_now(first: u32, replied: u32, slots: u32, extras: u32, ring: &mut Page) -> bool
    requires { (slots ≤ 256) × (extras < slots) }
    ensures { RepliedNow ring.old first replied slots extras ring.new result }
{
    if first == replied {
        replying::reply(ring, first, slots, extras, ERROR);
        let new = ring::ahead(first, slots);
        return ring::publish(ring, Side::Replies, first, new);
    }
    false
}

// A spoiled packet: consumed and finished with error, if a record is free.
pub fn refuse(
    first: u32,
    replied: u32,
    full: bool,
    o: Outline,
    fault: Fault,
    ring: &mut Page,
) -> Answer
    requires { Ready ring.old first o }
    ensures { (table window frame : List ℕ) (l : List Held) → Lent first replied full l → Gives
        (take_packet table window (go_on first replied) ring.old frame l o.extras (packet_at ring.old first o) (Err fault))
        (go_on first replied) l result ring.new frame }
{
    if full {
        return Answer::NoRecord;
    }
    let notify = reply_now(first, replied, o.slots, o.extras, ring);
    Answer::Spoiled {
        cause: fault.cause,
        place: fault.place,
        slots: o.slots,
        extras: o.extras,
        notify,
    }
}

// What is reported of a packet with this outline.
fn summary_of(o: Outline) -> Summary
    ensures { (p : List Slot) → o ≡ outline_of o.extras p → result ≡ summary_of o.extras p }
{
    Summary {
        slots: o.slots,
        total: u32::from(o.head.size),
        checksum_blank: o.head.checksum_blank(),
        data_validated: o.head.data_validated(),
        gso_size: o.gso_size,
        gso_type: o.gso_type,
    }
}

// A good packet whose frame stands in the frame buffer.
pub fn accept(o: Outline) -> Answer
    ensures { (p : List Slot) → o ≡ outline_of o.extras p → result ≡ Done (summary_of o.extras p) o.extras }
{
    Answer::Done {
        summary: summary_of(o),
        extras: o.extras,
    }
}

// A whole packet at the counter: judged, and then refused, or gathered and accepted if the frame buffer has room and a record is free.
pub fn settle(
    first: u32,
    replied: u32,
    full: bool,
    o: Outline,
    parts: &mut [Part; 18],
    grants: &[u8],
    window: &[u8],
    ring: &mut Page,
    frame: &mut [u8],
) -> Answer
    requires { Ready ring.old first o
        × SizesOf (sizes_in parts.old) (later_of o.extras (packet_at ring.old first o)) }
    ensures { (l : List Held) → Lent first replied full l → Gives
        (take_whole grants.now window.now (go_on first replied) ring.old frame.old l o.extras (packet_at ring.old first o))
        (go_on first replied) l result ring.new frame.new }
{
    if let Err(fault) = judging::judge(ring, first, o, parts, grants, window) {
        return refuse(first, replied, full, o, fault, ring);
    }
    if frame.len() < usize::from(o.head.size) {
        return Answer::NoRoom;
    }
    if full {
        return Answer::NoRecord;
    }
    let count = (o.slots - o.extras) as usize;
    gathering::gather(window, &parts[..count], frame);
    accept(o)
}
