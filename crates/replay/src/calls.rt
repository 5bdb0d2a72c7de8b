// The calls on a ring, one after another, up to and including the first that takes nothing.
ghost use Rattle.std.specs.Prelude.{◌≡◌, ◌+◌, ◌*◌, ◌<◌, length};
ghost use Rattle.ring.specs.Ring.{rsp_prod};
ghost use Rattle.lines.specs.Counts.{IsPrefixLen};
ghost use Rattle.replay.specs.Pattern.{Counted};
ghost use Rattle.replay.specs.Calls.{takes, most_calls, length_of, stored, TransmitCalled, TransmitCalls, ReceiveCalled, ReceiveCalls};

use lines::output::Output;
use lines::{checksum, line};
use netif::DataSlot;
use ring::{Page, RingSlot};
use runs::counter;
use std::io::Write;

// A ring holds so many slots, and each call but the last takes one or more.
const MOST_CALLS: u32 = DataSlot::COUNT + 1;

// The lengths of the frames that receive calls deliver, in turn.
const LENGTHS: [usize; 9] = [14, 60, 1514, 4095, 4096, 4097, 8192, 9000, 65535];

// Whether a call with this answer took something: done or spoiled.
fn took(answer: u32) -> bool
    ensures { result ≡ takes answer }
{
    matches!(answer, 0 | 7)
}

// A take, finished at once where it is done, and its line; whether it took something. The counters are lent one by one, as the C
// interface has them.
fn transmit_call<W: Write>(
    out: &mut Output<W>,
    name: &[u8],
    consumed: &mut u32,
    replied: &mut u32,
    halted: &mut u32,
    page: &mut Page,
    grants: &[u8],
    window: &[u8],
) -> bool
    ensures { TransmitCalled grants.now window.now
        (record { consumed = consumed.old; replied = replied.old; mark = halted.old; page = page.old })
        result
        (record { consumed = consumed.new; replied = replied.new; mark = halted.new; page = page.new }) }
{
    let mut frame = [0u8; 65535];
    let mut report = [0u32; 11];
    let mut finish = [0u32; 11];
    line::begin(out, name, b" tx", *consumed);
    let answer = at_once::take(
        consumed,
        replied,
        halted,
        page,
        grants,
        window,
        &mut frame,
        &mut report,
        &mut finish,
    );
    let frame_sum = checksum::of_first(&frame, report[5]);
    let page_sum = checksum::of(page);
    line::end_transmit(out, &report, &finish, frame_sum, page_sum);
    took(answer)
}

// The calls on a transmit ring.
pub fn transmit<W: Write>(
    out: &mut Output<W>,
    name: &[u8],
    page: &mut Page,
    grants: &[u8],
    window: &[u8],
)
    ensures { TransmitCalls grants.now window.now page.new 0 (stored page.old) }
{
    let mut consumed = counter(page);
    let mut replied = consumed;
    let mut halted = 0;
    for call in 0..MOST_CALLS {
        if !transmit_call(
            out,
            name,
            &mut consumed,
            &mut replied,
            &mut halted,
            page,
            grants,
            window,
        ) {
            return;
        }
    }
}

// The length of the frame that a receive call delivers.
fn frame_length(call: u32) -> usize
    ensures { result ≡ length_of call }
{
    LENGTHS[(call % 9) as usize]
}

// Fills a buffer with bytes that count up from a start, modulo 251.
pub fn fill(bytes: &mut [u8], start: u32)
    ensures { Counted start (length bytes.old) bytes.new }
{
    for (i, byte) in bytes.iter_mut().enumerate() {
        *byte = ((i % 251 + start as usize) % 251) as u8;
    }
}

// Puts the frame that a receive call delivers at the front of a buffer; its length.
fn frame_of(call: u32, buffer: &mut [u8; 65535]) -> usize
    requires { call < most_calls }
    ensures { IsPrefixLen result buffer.new × (result ≡ length_of call) × Counted (7 * call + 1) 65535 buffer.new }
{
    fill(buffer, 7 * call + 1);
    frame_length(call)
}

// A receive call and its line; whether it took something.
fn receive_call<W: Write>(
    out: &mut Output<W>,
    name: &[u8],
    call: u32,
    consumed: &mut u32,
    halted: &mut u32,
    page: &mut Page,
    grants: &[u8],
    window: &mut [u8],
) -> bool
    requires { call < most_calls }
    ensures { ReceiveCalled grants.now call consumed.old halted.old page.old
        window.old result consumed.new halted.new page.new window.new }
{
    let mut buffer = [0u8; 65535];
    let mut report = [0u32; 11];
    let n = frame_of(call, &mut buffer);
    let frame = &buffer[..n];
    line::begin(out, name, b" rx", *consumed);
    let answer = tollmeander::tollmeander_receive_put(
        consumed,
        halted,
        page,
        grants,
        window,
        frame,
        &mut report,
    );
    let frame_sum = checksum::of_first(frame, report[5]);
    let page_sum = checksum::of(page);
    let window_sum = checksum::of(window);
    line::end_receive(out, &report, frame_sum, page_sum, window_sum);
    took(answer)
}

// The calls on a receive ring.
pub fn receive<W: Write>(
    out: &mut Output<W>,
    name: &[u8],
    page: &mut Page,
    grants: &[u8],
    window: &mut [u8],
)
    ensures { ReceiveCalls grants.now page.new window.new 0 (rsp_prod page.old) 0
        page.old window.old }
{
    let mut consumed = counter(page);
    let mut halted = 0;
    for call in 0..MOST_CALLS {
        if !receive_call(
            out,
            name,
            call,
            &mut consumed,
            &mut halted,
            page,
            grants,
            window,
        ) {
            return;
        }
    }
}
