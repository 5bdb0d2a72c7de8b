// Runs both readers on the stored transmit ring pages that its arguments name and then on generated runs, and
// prints a line for each page and for each setting of the generator. tests/reference/FORMAT.md describes the runs and the lines.
#![tactic(auto)]

mod generated;
mod line;
mod stored;

ghost use Rattle.std.specs.Prelude.{◌≤◌};
ghost use Rattle.tally.specs.Tally.{Agreeing};

use lines::input::{arg, arg_count};
use lines::output::Output;
use std::io;
use std::io::Write;
use std::rt::{Env, Files};
use tally::Tally;

// The comparison on the page that an argument names.
fn page<R: Env + Files, W: Write>(rt: &R, out: &mut Output<W>, i: usize) -> Tally
    ensures { Agreeing result.runs result × (result.runs ≤ 1) }
{
    let mut room = [0u8; 64];
    let name = arg(rt, i, &mut room);
    stored::compare(rt, out, name)
}

// The comparison on the pages that all arguments name, of which there are so many with the program's own name.
fn pages<R: Env + Files, W: Write>(rt: &R, out: &mut Output<W>, count: usize) -> Tally
    ensures { Agreeing result.runs result × (result.runs ≤ count) }
{
    let mut all = Tally::default();
    for i in 1..count {
        all = all + page(rt, out, i);
    }
    all
}

fn main(rt: HostRuntime) -> io::Result<()> {
    let mut out = Output::new(io::writer(&rt));
    let stored = pages(&rt, &mut out, arg_count(&rt));
    let made = generated::all(&mut out);
    line::total(&mut out, stored + made);
    out.finish()
}
