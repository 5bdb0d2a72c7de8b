// A packet of one slot, as most are: settled with no loop and no table. It promises what `settling` does, and is a path of its own for speed.
#![tactic(auto)]

ghost use Rattle.std.specs.Prelude.{◌≡◌, List, ℕ, ◌+◌, ◌*◌, ◌≤◌, length, is_some, Some};
ghost use Rattle.netif.specs.Decode.{data_of};
ghost use Rattle.netif.specs.Slot.{transmit_slot};
ghost use Rattle.answer.specs.Verdict.{good};
ghost use Rattle.packet.specs.Stages.{part_by, slot_page};
ghost use Rattle.packet.specs.Judge.{judge};
ghost use Rattle.held.specs.declared.Held.{Held};
ghost use Rattle.transmit.specs.declared.Answer.{Answer};
ghost use Rattle.transmit.specs.declared.Answer.TheVariants.{Done};
ghost use Rattle.transmit.specs.Take.{go_on, summary_of};
ghost use Rattle.transmit.specs.Stages.{Lent, Gives, take_whole, packet_one, alone_outline, HandedOne};

use answer::Fault;
use grammar::{Outline, Part};
use netif::DataSlot;
use ring::Page;
use transmit::Answer;

// The outline of a packet that is one slot.
fn outline_of(head: DataSlot) -> Outline
    ensures { result ≡ alone_outline head }
{
    Outline {
        head,
        slots: 1,
        extras: 0,
        later_bytes: 0,
        gso_size: 0,
        gso_type: 0,
    }
}

// Where the part of a packet of one slot lies, or its cause.
fn judge_alone(grants: &[u8], window: &[u8], head: DataSlot) -> Result<u32, Fault>
    ensures { (ring : List ℕ) (first : ℕ) → head ≡ data_of (transmit_slot ring first)
        → result ≡ part_by (judge grants.now window.now 0 (packet_one ring first)) (slot_page grants.now (transmit_slot ring first)) }
{
    causes::judge_sizes(head.size, 0)?;
    causes::judge_slot(grants, window, head, head.size, 0)
}

// The part of a packet of one slot, which lies in this page.
fn part_of(head: DataSlot, page: u32) -> Part
    ensures { result ≡ record { page = page; offset = head.offset; size = head.size } }
{
    Part {
        page,
        offset: head.offset,
        size: head.size,
    }
}

// A good packet of one slot, whose part lies in this page: copied and accepted if the frame buffer has room and a record is free.
fn accept_alone(full: bool, head: DataSlot, page: u32, window: &[u8], frame: &mut [u8]) -> Answer
    requires { (4096 * page + 4096 ≤ length window.now) × (head.offset + head.size ≤ 4096) }
    ensures { (table ring : List ℕ) (first replied : ℕ) (l : List Held) → Lent first replied full l
        → head ≡ data_of (transmit_slot ring first)
        → judge table window.now 0 (packet_one ring first) ≡ good
        → page ≡ slot_page table (transmit_slot ring first)
        → Gives (take_whole table window.now (go_on first replied) ring frame.old l 0 (packet_one ring first))
        (go_on first replied) l result ring frame.new }
{
    if frame.len() < usize::from(head.size) {
        return Answer::NoRoom;
    }
    if full {
        return Answer::NoRecord;
    }
    gathering::copy_part(window, part_of(head, page), frame, 0);
    settling::accept(outline_of(head))
}

// A packet of one slot, as most are: what settle does of it, with no loop and no table.
pub fn settle_alone(
    first: u32,
    replied: u32,
    full: bool,
    grants: &[u8],
    window: &[u8],
    ring: &mut Page,
    frame: &mut [u8],
) -> Answer
    ensures { (l : List Held) → Lent first replied full l → Gives
        (take_whole grants.now window.now (go_on first replied) ring.old frame.old l 0 (packet_one ring.old first))
        (go_on first replied) l result ring.new frame.new }
{
    let head = ring::read::<DataSlot>(ring, first);
    match judge_alone(grants, window, head) {
        Err(fault) => settling::refuse(first, replied, full, outline_of(head), fault, ring),
        Ok(page) => accept_alone(full, head, page, window, frame),
    }
}

// Hands over the packet of one slot at the counter, if it is good and the frame buffer has room for it, and answers so.
pub fn hand_over(
    first: u32,
    grants: &[u8],
    window: &[u8],
    ring: &Page,
    frame: &mut [u8],
) -> Option<Answer>
    ensures { HandedOne grants.now window.now ring.now first frame.old (is_some result) frame.new
        × ((a : Answer) → result ≡ Some a → a ≡ Done (summary_of 0 (packet_one ring.now first)) 0) }
{
    let head = ring::read::<DataSlot>(ring, first);
    let Ok(page) = judge_alone(grants, window, head) else {
        return None;
    };
    let room = frame.len();
    if room < usize::from(head.size) {
        return None;
    }
    gathering::copy_part(window, part_of(head, page), frame, 0);
    Some(settling::accept(outline_of(head)))
}
