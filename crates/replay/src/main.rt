// Runs the stored ring pages of real guests that its arguments name, and then document 01's examples that are not proved, through
// the library's calls, and prints a line for each take and each put. tests/reference/FORMAT.md describes the inputs and the lines.
#![tactic(auto)]

mod calls;
mod examples;
mod stored;

use lines::input::{arg, arg_count};
use lines::output::Output;
use std::io;
use std::io::Write;
use std::rt::{Env, Files};

// The calls on the ring in the folder that an argument names.
fn replay<R: Env + Files, W: Write>(rt: &R, out: &mut Output<W>, i: usize) {
    let mut room = [0u8; 64];
    let name = arg(rt, i, &mut room);
    stored::replay(rt, out, name);
}

fn main(rt: HostRuntime) -> io::Result<()> {
    let mut out = Output::new(io::writer(&rt));
    for i in 1..arg_count(&rt) {
        replay(&rt, &mut out, i);
    }
    examples::replay(&mut out);
    out.finish()
}
