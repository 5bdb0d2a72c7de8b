// The words of a report that calls have in common, and of a put: the queue's two words and the report's eleven.
#![tactic(auto)]

ghost use Rattle.std.specs.Prelude.{◌≡◌};
ghost use Rattle.answer.specs.Report.{flag, plain, plain_summary, spoiled_report, done_report, taken_report, report_of};
ghost use Rattle.answer.specs.Words.{queue_of, mark_after, report_words};

use answer::{Answer, Queue, Summary};

// The eleven words of a report. They have places and no names, since the C interface lends them so.
pub type Words = [u32; 11];

// The numbers of the answers, by the names that C has for them.
pub const DONE: u32 = 0;

pub const BAD_PAGE: u32 = 1;

pub const HALTED: u32 = 2;

pub const OVERFLOW: u32 = 3;

pub const EMPTY: u32 = 4;

pub const MISSHAPEN: u32 = 5;

pub const WAITING: u32 = 6;

pub const SPOILED: u32 = 7;

pub const NO_ROOM: u32 = 8;

pub const BAD_LENGTH: u32 = 9;

pub const NO_BUFFERS: u32 = 10;

pub const NO_SLOTS: u32 = 11;

pub const BAD_PAGES: u32 = 12;

pub const BAD_GSO: u32 = 13;

pub const NO_RECORD: u32 = 14;

pub const BAD_TICKET: u32 = 15;

pub const BAD_RECORDS: u32 = 17;

// The queue that two words say, as C lends them.
pub fn queue_of(consumed: u32, mark: u32) -> Queue
    ensures { result ≡ queue_of consumed mark }
{
    Queue {
        consumed,
        halted: mark != 0,
    }
}

// The halted mark after a call.
#[tactic(auto, unfolding(answer::specs::Words::mark_after))]
pub fn mark_after(mark: u32, halted: bool) -> u32
    ensures { result ≡ mark_after mark halted }
{
    if mark == 0 { u32::from(halted) } else { mark }
}

// The report of an answer that does nothing more: its number, and zeros.
#[tactic(auto, unfolding(answer::specs::Words::report_words))]
pub fn write_number(report: &mut Words, number: u32) -> u32
    ensures { (result ≡ number) × (report.new ≡ report_words (plain number)) }
{
    *report = [number, 0, 0, 0, 0, 0, 0, 0, 0, 0, 0];
    number
}

// The report of a spoiled packet or of a frame whose requests are not fit.
#[tactic(auto, unfolding(answer::specs::Words::report_words))]
pub fn write_spoiled(report: &mut Words, cause: u8, place: u32, slots: u32, notify: bool) -> u32
    ensures { (result ≡ 7) × (report.new ≡ report_words (spoiled_report cause place slots notify)) }
{
    let number = u32::from(cause);
    let notified = u32::from(notify);
    *report = [SPOILED, number, place, slots, notified, 0, 0, 0, 0, 0, 0];
    SPOILED
}

// The report of slots that have their replies, or that are posted: how many, and whether to notify.
#[tactic(auto, unfolding(answer::specs::Words::report_words))]
pub fn write_sent(report: &mut Words, slots: u32, notify: bool) -> u32
    ensures { (result ≡ 0) × (report.new ≡ report_words (done_report (plain_summary slots 0) notify)) }
{
    *report = [DONE, 0, 0, slots, u32::from(notify), 0, 0, 0, 0, 0, 0];
    DONE
}

// The report of a frame that is put, whose ticket is 0, and of a packet that is taken, which never notifies.
#[tactic(auto, unfolding(answer::specs::Words::report_words))]
pub fn write_done(report: &mut Words, s: Summary, notify: bool, ticket: u32) -> u32
    ensures { (result ≡ 0) × (report.new ≡ report_words (record (taken_report s ticket) { notifies = flag notify })) }
{
    let notified = u32::from(notify);
    let blank = u32::from(s.checksum_blank);
    let validated = u32::from(s.data_validated);
    let gso_size = u32::from(s.gso_size);
    let gso_type = u32::from(s.gso_type);
    *report = [
        DONE, 0, 0, s.slots, notified, s.total, blank, validated, gso_size, gso_type, ticket,
    ];
    DONE
}

// All eleven words of a report of a put; the answer's number.
pub fn write_put(report: &mut Words, answer: Answer) -> u32
    ensures { (result ≡ (report_of answer).answer) × (report.new ≡ report_words (report_of answer)) }
{
    match answer {
        Answer::Done { summary, notify } => write_done(report, summary, notify, 0),
        Answer::Spoiled {
            cause,
            place,
            slots,
            notify,
        } => write_spoiled(report, cause, place, slots, notify),
        Answer::BadPage => write_number(report, BAD_PAGE),
        Answer::HaltedAlready => write_number(report, HALTED),
        Answer::Overflow => write_number(report, OVERFLOW),
        Answer::BadLength => write_number(report, BAD_LENGTH),
        Answer::NoBuffers => write_number(report, NO_BUFFERS),
    }
}
