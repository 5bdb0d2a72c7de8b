// Where lines are printed.
use std::fmt::Display;
use std::io;
use std::io::Write;

// A writer that keeps the first error of a write. From then on nothing more is written, and `finish` answers that error.
#[derive(Drop)]
pub struct Output<W: Write> {
    to: W,
    failed: Option<io::Error>,
}

impl<W: Write> Output<W> {
    pub fn new(to: W) -> Self {
        Output { to, failed: None }
    }

    // Bytes as they are.
    pub fn text(&mut self, bytes: &[u8]) {
        if self.failed.is_none() {
            self.failed = self.to.write_all(bytes).err();
        }
    }

    // What `write!` prints.
    pub fn write_fmt<D: Display + Drop>(&mut self, value: D) {
        if self.failed.is_none() {
            self.failed = self.to.write_fmt(value).err();
        }
    }

    // Whether all was written.
    pub fn finish(self) -> io::Result<()>
    where
        W: Drop,
    {
        let Output { mut to, failed } = self;
        match failed {
            None => to.flush(),
            Some(error) => Err(error),
        }
    }
}
