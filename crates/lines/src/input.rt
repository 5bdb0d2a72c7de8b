// The program's arguments, and the bytes of its files.
ghost use Rattle.std.specs.Prelude.{◌≤◌, length};
ghost use Rattle.lines.specs.Counts.{IsPrefixLen};

use std::env::FillError;
use std::io::Read;
use std::rt::Env;

// How many arguments there are, with the program's own name.
pub fn arg_count<R: Env>(rt: &R) -> usize {
    let mut room = [0u8; 1];
    for i in 0..usize::MAX {
        if let Err(FillError::NotPresent) = rt.arg(i, &mut room) {
            return i;
        }
    }
    usize::MAX
}

// An argument, put at the front of a buffer; empty where there is no such argument or no room for it.
pub fn arg<'a, R: Env>(rt: &R, i: usize, buffer: &'a mut [u8]) -> &'a [u8]
    ensures { length result.now ≤ length buffer.old }
{
    match rt.arg(i, buffer) {
        Ok(n) => &buffer[..n],
        Err(_) => &[],
    }
}

// Reads until a buffer is full, the input ends or a read fails; the number of bytes, which are at the buffer's front.
// Counted by hand: a read itself says how many bytes it brought.
pub fn read_full<R: Read>(from: &mut R, buffer: &mut [u8]) -> usize
    ensures { IsPrefixLen result buffer.new }
{
    let mut done = 0;
    while done < buffer.len() {
        match from.read(&mut buffer[done..]) {
            Ok(0) | Err(_) => break,
            Ok(n) => done += n,
        }
    }
    done
}
