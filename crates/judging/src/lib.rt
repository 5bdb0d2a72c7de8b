// The verdict on a whole packet.
#![tactic(auto)]

ghost use Rattle.std.specs.Prelude.{◌≡◌};
ghost use Rattle.packet.specs.Judge.{judge};
ghost use Rattle.grammar.specs.Packet.{later_of};
ghost use Rattle.grammar.specs.Stages.{sizes_in};
ghost use Rattle.packet.specs.Stages.{SizesOf, packet_at, Ready, Judged};

use answer::Fault;
use grammar::{Outline, Part};
use ring::Page;

// The verdict on a whole packet, whose later sizes are in the table; where it is good, the table gets its parts.
pub fn judge(
    ring: &Page,
    first: u32,
    o: Outline,
    parts: &mut [Part; 18],
    grants: &[u8],
    window: &[u8],
) -> Result<(), Fault>
    requires { Ready ring.now first o
        × SizesOf (sizes_in parts.old) (later_of o.extras (packet_at ring.now first o)) }
    ensures { Judged grants.now o.extras (packet_at ring.now first o)
        (judge grants.now window.now o.extras (packet_at ring.now first o))
        parts.new result }
{
    causes::judge_sizes(o.head.size, o.later_bytes)?;
    planning::judge_slots(ring, first, o, parts, grants, window)?;
    causes::judge_gso(o.extras, o.gso_size, o.gso_type)
}
