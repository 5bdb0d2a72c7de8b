// The printed lines, field by field.
use division::{Cuts, Ending, Refused};
use lines::output::Output;
use readers::Compared;
use std::io::Write;
use tally::Tally;

// How an answer ends: its rest, or why it was refused; with the blank before it, so that both are one write.
fn end_of(answer: Result<Cuts, Refused>) -> &'static str {
    match answer.map(|cuts| cuts.ending) {
        Ok(Ending::Empty) => " empty",
        Ok(Ending::Waiting) => " waiting",
        Ok(Ending::Misshapen) => " misshapen",
        Err(Refused::Uneven) => " uneven",
        Err(Refused::TooLong) => " too-long",
    }
}

// The line of a stored page.
pub fn page<W: Write>(out: &mut Output<W>, name: &[u8], slots: usize, compared: Compared) {
    let slow = readers::count_of(compared.slow);
    let fast = readers::count_of(compared.fast);
    let agreed = compared.agreed;
    out.text(name);
    write!(
        out,
        " slots {slots} slow {slow} fast {fast} agreed {agreed}"
    );
    writeln!(
        out,
        " ends{}{}",
        end_of(compared.slow),
        end_of(compared.fast)
    );
}

// The line of a stored page that was not compared, and why: the rest of the line, in one write.
pub fn refused<W: Write>(out: &mut Output<W>, name: &[u8], why: &[u8]) {
    out.text(name);
    out.text(why);
}

// The fields that a setting's line and the last line share.
fn runs<W: Write>(out: &mut Output<W>, all: Tally) {
    write!(
        out,
        " runs {} slots {} slow {} fast {}",
        all.runs, all.slots, all.slow, all.fast
    );
    write!(out, " agreed {} alike {}", all.agreed, all.alike);
}

// The line of a setting of the generator, with how many runs ended in each way.
pub fn setting<W: Write>(out: &mut Output<W>, name: &str, all: Tally) {
    write!(out, "{name}");
    runs(out, all);
    write!(
        out,
        " empty {} waiting {} misshapen {}",
        all.empty, all.waiting, all.misshapen
    );
    writeln!(out, " uneven {} too-long {}", all.uneven, all.too_long);
}

// The last line: all runs, stored and generated.
pub fn total<W: Write>(out: &mut Output<W>, all: Tally) {
    write!(out, "total");
    runs(out, all);
    writeln!(out);
}
