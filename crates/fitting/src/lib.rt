// Whether a record may stand in a list of held packets, as far as it is looked at alone.
#![tactic(auto)]

ghost use Rattle.std.specs.Prelude.{◌≡◌};
ghost use Rattle.held.specs.Records.{is_status};
ghost use Rattle.held.specs.Valid.{is_count};
ghost use Rattle.fitting.specs.Fits.{fits_at};

use held::{DROPPED, ERROR, Held, OKAY};

const MOST_DATA_SLOTS: u32 = 18;

const MOST_EXTRAS: u32 = 4;

// Whether a status is okay, error or dropped.
pub fn is_status(status: u32) -> bool
    ensures { result ≡ is_status status }
{
    matches!(status, OKAY | ERROR | DROPPED)
}

// Whether some packet has so many slots, of which so many extras. Where there is no data slot, the difference wraps and is above the limit.
fn is_count(slots: u32, extras: u32) -> bool
    ensures { result ≡ is_count slots extras }
{
    extras <= MOST_EXTRAS && slots.wrapping_sub(extras + 1) < MOST_DATA_SLOTS
}

// Whether a held record may stand at an offset from the counter of replies sent, where so many slots lie between the counters: its slots lie
// within these, its counts are a packet's, its status is one of the three, and the oldest is not finished.
pub fn fits_at(h: Held, offset: u32, between: u32) -> bool
    ensures { result ≡ fits_at h offset between }
{
    offset as u64 + h.slots as u64 <= between as u64
        && is_count(h.slots, h.extras)
        && is_status(h.status)
        && (offset != 0 || !h.is_finished())
}
