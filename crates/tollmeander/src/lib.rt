// The calls, with the numbers, slices and words that C has: the C interface gives a queue, a gso and a report as words.
#![tactic(auto)]

ghost use Rattle.interface.specs.Interface.{TakeCallLeaves, FinishCallLeaves, ReceiveLeaves, PostLeaves};

use held::Held;

// Takes the packet at the counter of a transmit ring, and holds it in a record.
pub fn tollmeander_transmit_take(
    consumed: &mut u32,
    replied: &mut u32,
    halted: &mut u32,
    ring: &mut [u8],
    grants: &[u8],
    window: &[u8],
    held: &mut [Held],
    frame: &mut [u8],
    report: &mut [u32; 11],
) -> u32
    ensures { TakeCallLeaves grants.now window.now consumed.old replied.old halted.old
        ring.old held.old frame.old
        (record { returned = result; consumed = consumed.new; replied = replied.new; mark = halted.new; page = ring.new; frame = frame.new; list = held.new; words = report.new }) }
{
    let mark = *halted;
    let queue = take_words::queue_of(*consumed, *replied, mark);
    let taken = taking::take(held, queue, grants, window, ring, frame);
    *consumed = taken.queue.consumed;
    *replied = taken.queue.replied;
    *halted = reporting::mark_after(mark, taken.queue.halted);
    take_words::write_take(report, taken)
}

// Finishes the packet of a ticket with a status, 0, -1 or -2 as 32-bit two's complement.
pub fn tollmeander_transmit_finish(
    consumed: u32,
    replied: &mut u32,
    ring: &mut [u8],
    held: &mut [Held],
    ticket: u32,
    status: u32,
    report: &mut [u32; 11],
) -> u32
    ensures { FinishCallLeaves consumed replied.old ring.old held.old ticket status
        (record { returned = result; replied = replied.new; page = ring.new; list = held.new; words = report.new }) }
{
    let sent = *replied;
    let finished = finishing::finish(held, consumed, sent, ring, ticket, status);
    *replied = take_words::replied_after(sent, finished);
    take_words::write_finish(report, finished)
}

// Puts a frame into the pages of the requests at the counter of a receive ring.
pub fn tollmeander_receive_put(
    consumed: &mut u32,
    halted: &mut u32,
    ring: &mut [u8],
    grants: &[u8],
    window: &mut [u8],
    frame: &[u8],
    report: &mut [u32; 11],
) -> u32
    ensures { ReceiveLeaves grants.now window.old consumed.old halted.old
        ring.old frame.now
        (record { returned = result; consumed = consumed.new; mark = halted.new; page = ring.new; buffer = window.new; words = report.new }) }
{
    let mark = *halted;
    let queue = reporting::queue_of(*consumed, mark);
    let outcome = putting::put(queue, grants, window, ring, frame);
    *consumed = outcome.queue.consumed;
    *halted = reporting::mark_after(mark, outcome.queue.halted);
    reporting::write_put(report, outcome.answer)
}

// Lays a frame into the pages that references name, and posts it on a transmit ring as one packet.
pub fn tollmeander_transmit_post(
    replies_read: u32,
    ring: &mut [u8],
    grants: &[u8],
    window: &mut [u8],
    references: &[u32],
    frame: &[u8],
    gso: u32,
    gso_size: u16,
    gso_type: u8,
    report: &mut [u32; 11],
) -> u32
    ensures { PostLeaves grants.now window.old replies_read gso gso_size gso_type ring.old
        references.now frame.now result ring.new window.new report.new }
{
    let extra = post_words::gso_of(gso, gso_size, gso_type);
    let answer = post::post(replies_read, extra, grants, window, references, ring, frame);
    post_words::write_post(report, answer)
}
