// Which record a ticket names, and whether its packet may be finished.
#![tactic(auto)]

ghost use Rattle.std.specs.Prelude.{◌≡◌, ◌≤◌, ◌&&◌, ◌==◌};
ghost use Rattle.ring.specs.Ring.{wsub};
ghost use Rattle.held.specs.Records.{is_status};
ghost use Rattle.ticketing.specs.Place.{place_in};

use held::Held;
use noting::Index;

// The place of a ticket's record in an index of so many slots, if the ticket is held.
pub fn find(index: &Index, ticket: u32, replied: u32, slots: u32) -> Option<usize>
    requires { slots ≤ 256 }
    ensures { result ≡ place_in index.now (wsub ticket replied) slots }
{
    let offset = ticket.wrapping_sub(replied);
    if offset < slots && index.holds(offset) {
        Some(index.place(offset))
    } else {
        None
    }
}

// Whether the packet of a record may be finished with a status.
pub fn may_finish(h: Held, status: u32) -> bool
    ensures { result ≡ (h.finished == 0) && is_status status }
{
    !h.is_finished() && fitting::is_status(status)
}
