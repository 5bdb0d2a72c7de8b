// The causes for 7, one by one: of the sizes, of a data slot, and of the gso fields.
#![tactic(auto)]

ghost use Rattle.std.specs.Prelude.{◌≡◌, ◌-◌};
ghost use Rattle.packet.specs.Judge.{judge_sizes, judge_gso};
ghost use Rattle.netif.specs.Slot.{Slot};
ghost use Rattle.netif.specs.Decode.{data_of};
ghost use Rattle.packet.specs.Stages.{slot_part};

use answer::Fault;
use grant::Unlent;
use netif::DataSlot;

// Causes 1 and 3, of the total and the later sizes together.
#[tactic(auto, using(packet::proofs::Plans::sizes_short, packet::proofs::Plans::sizes_over, packet::proofs::Plans::sizes_right))]
pub fn judge_sizes(total: u16, later: u32) -> Result<(), Fault>
    ensures { result ≡ judge_sizes total later }
{
    if total < 14 {
        return Err(Fault {
            cause: Fault::SHORT,
            place: 0,
        });
    }
    if (total as u32) < later {
        return Err(Fault {
            cause: Fault::OVERRUN,
            place: 0,
        });
    }
    Ok(())
}

// Cause 6, of the last extra's gso fields.
#[tactic(auto, using(packet::proofs::Plans::gso_none, packet::proofs::Plans::gso_right, packet::proofs::Plans::gso_zero, packet::proofs::Plans::gso_other))]
pub fn judge_gso(extras: u32, gso_size: u16, gso_type: u8) -> Result<(), Fault>
    ensures { result ≡ judge_gso extras gso_size gso_type }
{
    if extras == 0 || gso_size != 0 && matches!(gso_type, 1 | 2) {
        return Ok(());
    }
    Err(Fault {
        cause: Fault::GSO,
        place: extras,
    })
}

// Where the part of a data slot lies, or its cause 4 or 5, at its place of the packet. The three cases stand side by side, which is
// plainer than a conversion of the error that takes the place along.
pub fn judge_slot(
    grants: &[u8],
    window: &[u8],
    slot: DataSlot,
    size: u16,
    place: u32,
) -> Result<u32, Fault>
    ensures { (s : Slot) → slot ≡ data_of s → result ≡ slot_part grants.now window.now place s size }
{
    match grant::source_of(grants, window, slot.gref, slot.offset, size) {
        Ok(page) => Ok(page),
        Err(Unlent::Unfit) => Err(Fault {
            cause: Fault::UNFIT,
            place,
        }),
        Err(Unlent::Outside) => Err(Fault {
            cause: Fault::OUTSIDE,
            place,
        }),
    }
}
