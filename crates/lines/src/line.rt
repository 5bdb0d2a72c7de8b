// The line of a call, field by field.
use crate::output::Output;
use std::io::Write;

// The line's start: the ring's name and kind, and the counter before the call.
pub fn begin<W: Write>(out: &mut Output<W>, name: &[u8], ring: &[u8], consumed: u32) {
    out.text(name);
    out.text(ring);
    write!(out, " consumed {consumed}");
}

// The name of an answer, which a report has as a number, as the C interface has it; with the blank before it, so that both are one write.
fn answer_name(answer: u32) -> &'static str {
    match answer {
        0 => " done",
        1 => " bad-page",
        2 => " halted-already",
        3 => " overflow",
        4 => " empty",
        5 => " misshapen",
        6 => " waiting",
        7 => " spoiled",
        8 => " no-room",
        9 => " bad-frame-length",
        10 => " no-buffers",
        _ => " ?",
    }
}

// Ten words of a report, slots and notify of them from another, and the checksums of the frame and of the ring page.
fn told<W: Write>(
    out: &mut Output<W>,
    report: &[u32; 11],
    replied: &[u32; 11],
    frame: u32,
    page: u32,
) {
    let [answer, cause, place, ..] = *report;
    let [_, _, _, slots, notify, ..] = *replied;
    let [.., total, blank, validated, gso_size, gso_type, _] = *report;
    write!(
        out,
        " answer {answer}{} cause {cause} place {place}",
        answer_name(answer)
    );
    write!(
        out,
        " slots {slots} notify {notify} total {total} blank {blank} validated {validated}"
    );
    write!(
        out,
        " gso {gso_size} {gso_type} frame {frame:08x} page {page:08x}"
    );
}

// The rest of a take's line: the slots and notify of a done one are those of its finish.
pub fn end_transmit<W: Write>(
    out: &mut Output<W>,
    report: &[u32; 11],
    finish: &[u32; 11],
    frame: u32,
    page: u32,
) {
    let replied = if report[0] == 0 { finish } else { report };
    told(out, report, replied, frame, page);
    writeln!(out);
}

// The rest of a receive call's line, with the checksum of the window.
pub fn end_receive<W: Write>(
    out: &mut Output<W>,
    report: &[u32; 11],
    frame: u32,
    page: u32,
    window: u32,
) {
    told(out, report, report, frame, page);
    writeln!(out, " window {window:08x}");
}
