// A take whose packet is finished at once, for a host that holds no packet from call to call.
#![tactic(auto)]

ghost use Rattle.at_once.specs.Call.{Called};

use held::Held;

// The place of the ticket in a report, and the answer of a take that is done.
const TICKET: usize = 10;

const DONE: u32 = 0;

// A take with its report, lent a list of one record. If it is done, its packet is finished with okay, and the finish has the second report.
pub fn take(
    consumed: &mut u32,
    replied: &mut u32,
    halted: &mut u32,
    ring: &mut [u8],
    grants: &[u8],
    window: &[u8],
    frame: &mut [u8],
    report: &mut [u32; 11],
    finish: &mut [u32; 11],
) -> u32
    ensures { Called grants.now window.now frame.old finish.old
        (record { consumed = consumed.old; replied = replied.old; mark = halted.old; page = ring.old })
        result
        (record { consumed = consumed.new; replied = replied.new; mark = halted.new; page = ring.new })
        frame.new report.new finish.new }
{
    let mut records = [Held::FREE];
    let answer = tollmeander::tollmeander_transmit_take(
        consumed,
        replied,
        halted,
        ring,
        grants,
        window,
        &mut records,
        frame,
        report,
    );
    if answer != DONE {
        return answer;
    }
    let ticket = report[TICKET];
    tollmeander::tollmeander_transmit_finish(
        *consumed,
        replied,
        ring,
        &mut records,
        ticket,
        held::OKAY,
        finish,
    );
    answer
}
