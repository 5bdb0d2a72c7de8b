// The words of a take and of a finish: the queue's three words and the report's eleven.
#![tactic(auto)]

ghost use Rattle.std.specs.Prelude.{◌≡◌};
ghost use Rattle.answer.specs.Words.{report_words};
ghost use Rattle.transmit.specs.Words.{queue_of};
ghost use Rattle.transmit.specs.Stages.{report_of};
ghost use Rattle.finishing.specs.Finished.{report_of as finishReportOf, replied_after};

use concluding::Taken;
use finishing::{Refusal, Sent};
use reporting::Words;
use transmit::{Answer, Queue};

// The transmit queue that three words say, as C lends them.
pub fn queue_of(consumed: u32, replied: u32, mark: u32) -> Queue
    ensures { result ≡ queue_of consumed replied mark }
{
    Queue {
        consumed,
        replied,
        halted: mark != 0,
    }
}

// All eleven words of a report of a take; the answer's number.
pub fn write_take(report: &mut Words, taken: Taken) -> u32
    ensures { (result ≡ (report_of taken.ticket taken.answer).answer) × (report.new ≡ report_words (report_of taken.ticket taken.answer)) }
{
    match taken.answer {
        Answer::Done { summary, .. } => reporting::write_done(report, summary, false, taken.ticket),
        Answer::Spoiled {
            cause,
            place,
            slots,
            notify,
            ..
        } => reporting::write_spoiled(report, cause, place, slots, notify),
        Answer::BadPage => reporting::write_number(report, reporting::BAD_PAGE),
        Answer::HaltedAlready => reporting::write_number(report, reporting::HALTED),
        Answer::Overflow => reporting::write_number(report, reporting::OVERFLOW),
        Answer::Empty => reporting::write_number(report, reporting::EMPTY),
        Answer::Misshapen => reporting::write_number(report, reporting::MISSHAPEN),
        Answer::Waiting => reporting::write_number(report, reporting::WAITING),
        Answer::NoRoom => reporting::write_number(report, reporting::NO_ROOM),
        Answer::NoRecord => reporting::write_number(report, reporting::NO_RECORD),
        Answer::BadRecords => reporting::write_number(report, reporting::BAD_RECORDS),
    }
}

// All eleven words of a report of a finish; the answer's number.
pub fn write_finish(report: &mut Words, finished: Result<Sent, Refusal>) -> u32
    ensures { (result ≡ (finishReportOf finished).answer) × (report.new ≡ report_words (finishReportOf finished)) }
{
    match finished {
        Ok(sent) => reporting::write_sent(report, sent.slots, sent.notify),
        Err(Refusal::BadPage) => reporting::write_number(report, reporting::BAD_PAGE),
        Err(Refusal::BadRecords) => reporting::write_number(report, reporting::BAD_RECORDS),
        Err(Refusal::BadTicket) => reporting::write_number(report, reporting::BAD_TICKET),
    }
}

// The counter of replies sent that a finish leaves.
pub fn replied_after(replied: u32, finished: Result<Sent, Refusal>) -> u32
    ensures { result ≡ replied_after replied finished }
{
    match finished {
        Ok(sent) => ring::ahead(replied, sent.slots),
        Err(_) => replied,
    }
}
