// The comparison on generated runs, by the settings of the generator.
ghost use Rattle.std.specs.Prelude.{◌+◌, ◌≤◌};
ghost use Rattle.tally.specs.Tally.{Agreeing};

use crate::line;
use lines::output::Output;
use netif::DataSlot;
use ring::RingSlot;
use runs::Setting;
use std::io::Write;
use tally::Tally;

// The runs of a setting.
const RUNS: u32 = 512;

// Packets up to the limit, and no flaws.
const LIMIT: Setting = Setting {
    later: 17,
    extras: 4,
    flaws: 0,
};

// The comparison on the run of a number.
fn run(number: u32, setting: Setting) -> Tally
    ensures { Agreeing 1 result }
{
    let mut room = [0u8; 3084];
    let n = runs::make(number, setting, &mut room);
    let run = &room[..n];
    tally::of(n / DataSlot::WIDTH, readers::compare(run))
}

// The comparison on all runs of a setting, which are numbered from a first number on.
fn runs(first: u32, setting: Setting) -> Tally
    ensures { Agreeing 512 result }
{
    let mut all = Tally::default();
    for k in 0..RUNS {
        all = all + run(first.wrapping_add(k), setting);
    }
    all
}

// The comparison on a setting's runs and its line, added to what was counted before, of the runs up to its first number.
fn add<W: Write>(
    out: &mut Output<W>,
    before: Tally,
    name: &str,
    first: u32,
    setting: Setting,
) -> Tally
    requires { Agreeing first before × (first ≤ 3072) }
    ensures { Agreeing (first + 512) result }
{
    let found = runs(first, setting);
    line::setting(out, name, found);
    before + found
}

// The settings whose packets are all within the limit, in FORMAT.md's order.
fn within<W: Write>(out: &mut Output<W>) -> Tally
    ensures { Agreeing 2048 result }
{
    let none = Setting {
        later: 0,
        extras: 0,
        flaws: 0,
    };
    let singles = add(out, Tally::default(), "singles", 0, none);
    let extras = add(out, singles, "extras", 512, Setting { extras: 4, ..none });
    let data = add(out, extras, "data", 1024, Setting { later: 17, ..none });
    add(out, data, "both", 1536, LIMIT)
}

// All settings: behind those, packets over the limit, slots with flaws, and slots that stay as drawn.
pub fn all<W: Write>(out: &mut Output<W>) -> Tally
    ensures { Agreeing 3584 result }
{
    let small = within(out);
    let beyond = Setting {
        later: 18,
        extras: 5,
        ..LIMIT
    };
    let over = add(out, small, "over", 2048, beyond);
    let flawed = add(out, over, "flawed", 2560, Setting { flaws: 4, ..LIMIT });
    add(
        out,
        flawed,
        "free",
        3072,
        Setting {
            flaws: 256,
            ..LIMIT
        },
    )
}
