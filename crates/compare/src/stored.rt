// The comparison on stored transmit ring pages of real guests.
ghost use Rattle.std.specs.Prelude.{◌≤◌};
ghost use Rattle.runs.specs.Stored.{runs_of};
ghost use Rattle.tally.specs.Tally.{Agreeing};

use crate::line;
use lines::input::read_full;
use lines::output::Output;
use netif::DataSlot;
use ring::{Page, RingSlot};
use std::fs::File;
use std::io::Write;
use std::rt::Files;
use std::str;
use tally::Tally;

// Reads a stored page; nothing where the file is not exactly a page.
fn load<R: Files>(rt: &R, name: &[u8]) -> Option<Page> {
    let mut page = [0u8; ring::PAGE_SIZE];
    let mut more = [0u8; 1];
    let path = str::from_utf8(name).ok()?;
    let mut file = File::open(rt, path).ok()?;
    let whole = read_full(&mut file, &mut page) == ring::PAGE_SIZE;
    let ended = read_full(&mut file, &mut more) == 0;
    if whole && ended { Some(page) } else { None }
}

// The comparison on a run and its line.
fn compare_run<W: Write>(out: &mut Output<W>, name: &[u8], run: &[u8]) -> Tally
    ensures { Agreeing 1 result }
{
    let slots = run.len() / DataSlot::WIDTH;
    let compared = readers::compare(run);
    line::page(out, name, slots, compared);
    tally::of(slots, compared)
}

// The comparison on the slots that a page has from its rsp_prod up to its req_prod.
fn compare_page<W: Write>(out: &mut Output<W>, name: &[u8], page: &Page) -> Tally
    ensures { Agreeing (runs_of page.now) result }
{
    let from = runs::counter(page);
    let posted = ring::posted(page, from);
    if DataSlot::COUNT < posted {
        line::refused(out, name, b" overflow\n");
        return Tally::default();
    }
    let mut run = [0u8; 3072];
    runs::take(page, from, posted, &mut run);
    let n = DataSlot::WIDTH * (posted as usize);
    compare_run(out, name, &run[..n])
}

// The comparison on the page in a file, which may have no run.
pub fn compare<R: Files, W: Write>(rt: &R, out: &mut Output<W>, name: &[u8]) -> Tally
    ensures { Agreeing result.runs result × (result.runs ≤ 1) }
{
    let Some(page) = load(rt, name) else {
        line::refused(out, name, b" unreadable\n");
        return Tally::default();
    };
    compare_page(out, name, &page)
}
