// A line in full, a write that fails, and reads that come in pieces.
use crate::input::read_full;
use crate::line;
use crate::output::Output;
use std::io;
use std::io::{ErrorKind, Read, Write};

// Counts the writes, of which the second fails.
#[derive(Drop)]
struct Breaks {
    writes: u32,
}

impl Write for Breaks {
    fn write(&mut self, buf: &[u8]) -> io::Result<usize> {
        self.writes = self.writes.saturating_add(1);
        if self.writes == 2 {
            return Err(io::Error::from(ErrorKind::StorageFull));
        }
        Ok(buf.len())
    }

    fn flush(&mut self) -> io::Result<()> {
        Ok(())
    }
}

// Gives a byte a read, so many, and then an error.
#[derive(Drop)]
struct Drip(u8);

impl Read for Drip {
    fn read(&mut self, buf: &mut [u8]) -> io::Result<usize> {
        if self.0 == 0 {
            return Err(io::Error::from(ErrorKind::Other));
        }
        if buf.is_empty() {
            return Ok(0);
        }
        buf[0] = self.0;
        self.0 -= 1;
        Ok(1)
    }
}

#[test]
fn a_line(rt: HostRuntime) -> io::Result<()> {
    let mut text = Vec::new(rt.alloc());
    let mut out = Output::new(&mut text);
    line::begin(&mut out, b"total-14", b" tx", 0);
    let report = [0, 0, 0, 1, 1, 14, 0, 0, 0, 0, 0];
    line::end_transmit(&mut out, &report, &report, 0xa7cb5166, 0x1a4cff0b);
    out.finish()?;
    let line =
        b"total-14 tx consumed 0 answer 0 done cause 0 place 0 slots 1 notify 1 total 14 blank 0 validated 0 gso 0 0 frame a7cb5166 page 1a4cff0b\n";
    assert!(rt; text.as_slice() == line.as_slice());
    Ok(())
}

#[test]
fn a_failed_write(rt: HostRuntime) {
    let mut to = Breaks { writes: 0 };
    let mut out = Output::new(&mut to);
    line::begin(&mut out, b"one", b" rx", 7);
    assert!(rt; out.finish().is_err());
    assert_eq!(rt; to.writes, 2);
}

#[test]
fn bytes_that_come_in_pieces(rt: HostRuntime) {
    let mut room = [0u8; 4];
    assert_eq!(rt; read_full(&mut Drip(9), &mut room), 4);
    assert_eq!(rt; room, [9, 8, 7, 6]);
    assert_eq!(rt; read_full(&mut Drip(3), &mut room), 3);
    assert_eq!(rt; room, [3, 2, 1, 6]);
}
