// One finish: the host's word on a ticket. Replies leave in the order of taking, as far as finished packets reach.
#![tactic(auto)]

ghost use Rattle.std.specs.Prelude.{◌≡◌, ℕ};
ghost use Rattle.held.specs.Valid.{between};
ghost use Rattle.inspecting.specs.Inspection.{Indexed};
ghost use Rattle.transmit.specs.Finish.{transmit_finish};
ghost use Rattle.finishing.specs.Finished.{FinishGives, finish_held, Published};

use held::Held;
use noting::Index;
use ring::{Page, Side};

// A finish that is done: the slots that got their replies, and whether to notify the guest of them.
#[derive(Clone, Copy)]
pub struct Sent {
    pub slots: u32,
    pub notify: bool,
}

// Why a packet is not finished. Nothing is changed then.
#[derive(Clone, Copy)]
pub enum Refusal {
    BadPage,
    BadRecords,
    BadTicket,
}

// So many slots have their replies: moves rsp_prod behind them, if there are some.
fn publish(ring: &mut Page, replied: u32, slots: u32) -> Sent
    ensures { Published ring.old replied slots result ring.new }
{
    if slots == 0 {
        return Sent {
            slots,
            notify: false,
        };
    }
    let notify = ring::publish(ring, Side::Replies, replied, ring::ahead(replied, slots));
    Sent { slots, notify }
}

// Finishes the packet of a ticket with a status, the list being valid, with its index and the slots between the counters.
fn finish_held(
    list: &mut [Held],
    index: &Index,
    slots: u32,
    replied: u32,
    ring: &mut Page,
    ticket: u32,
    status: u32,
) -> Result<Sent, Refusal>
    requires { Indexed slots replied list.old index.now }
    ensures { (consumed : ℕ) → slots ≡ between consumed replied → FinishGives
        (finish_held consumed replied ring.old list.old ticket status) replied result ring.new list.new }
{
    let at = ticketing::find(index, ticket, replied, slots).ok_or(Refusal::BadTicket)?;
    if !ticketing::may_finish(list[at], status) {
        return Err(Refusal::BadTicket);
    }
    records::finish(list, at, status);
    let left = leaving::leave(list, index, slots, replied, ring);
    Ok(publish(ring, replied, left))
}

// Finishes the packet of a ticket with a status.
pub fn finish(
    list: &mut [Held],
    consumed: u32,
    replied: u32,
    ring: &mut [u8],
    ticket: u32,
    status: u32,
) -> Result<Sent, Refusal>
    ensures { FinishGives (transmit_finish consumed replied ring.old list.old ticket status) replied result ring.new
        list.new }
{
    let Some(ring) = ring.as_mut_array::<4096>() else {
        return Err(Refusal::BadPage);
    };
    let mut index = Index::new();
    let found = inspecting::inspect(list, consumed, replied, &mut index);
    let tally = found.ok_or(Refusal::BadRecords)?;
    finish_held(list, &index, tally.slots, replied, ring, ticket, status)
}
