// One take on a ring and its list of held packets.
#![tactic(auto)]

ghost use Rattle.transmit.specs.Take.{transmit_take};
ghost use Rattle.concluding.specs.Taken.{TakenAs};

use concluding::Taken;
use held::Held;
use transmit::Queue;

// Looks the list over, takes the packet at the counter, if a whole one stands there, and keeps its record in the first free one's place.
pub fn take(
    list: &mut [Held],
    queue: Queue,
    grants: &[u8],
    window: &[u8],
    ring: &mut [u8],
    frame: &mut [u8],
) -> Taken
    ensures { TakenAs (transmit_take grants.now window.now queue ring.old frame.old list.old)
        result ring.new frame.new list.new }
{
    let found = glancing::look_over(list, queue.consumed, queue.replied);
    let taken = concluding::conclude(queue, found, grants, window, ring, frame);
    if let Some(held) = taken.record {
        let at = noting::free_in(found).unwrap();
        records::add(list, at, held);
    }
    taken
}
