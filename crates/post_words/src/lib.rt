// The words of a post: the gso's three and the report's eleven.
#![tactic(auto)]

ghost use Rattle.std.specs.Prelude.{◌≡◌};
ghost use Rattle.answer.specs.Words.{report_words};
ghost use Rattle.frontend.specs.Post.{report_of};
ghost use Rattle.interface.specs.Interface.{gso_of};

use frontend::{Gso, Posted, Refusal};
use reporting::Words;

// The gso that three words say: none where the first is 0.
#[tactic(auto, unfolding(interface::specs::Interface::gso_of))]
pub fn gso_of(given: u32, size: u16, kind: u8) -> Option<Gso>
    ensures { result ≡ gso_of given size kind }
{
    if given == 0 {
        None
    } else {
        Some(Gso { size, kind })
    }
}

// All eleven words of a report of a post; the answer's number.
pub fn write_post(report: &mut Words, answer: Result<Posted, Refusal>) -> u32
    ensures { (result ≡ (report_of answer).answer) × (report.new ≡ report_words (report_of answer)) }
{
    match answer {
        Ok(posted) => reporting::write_sent(report, posted.slots, posted.notify),
        Err(Refusal::BadPage) => reporting::write_number(report, reporting::BAD_PAGE),
        Err(Refusal::BadLength) => reporting::write_number(report, reporting::BAD_LENGTH),
        Err(Refusal::NoSlots) => reporting::write_number(report, reporting::NO_SLOTS),
        Err(Refusal::BadPages) => reporting::write_number(report, reporting::BAD_PAGES),
        Err(Refusal::BadGso) => reporting::write_number(report, reporting::BAD_GSO),
    }
}
