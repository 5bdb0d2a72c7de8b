// The stored ring pages of real guests: a folder for each, with a ring page, a grant table and a window.
ghost use Rattle.std.specs.Prelude.{◌≡◌, ◌++◌, ◌≤◌, length, IfSome};
ghost use Rattle.lines.specs.Counts.{IsPrefixLen};

use crate::calls;
use lines::input::read_full;
use lines::output::Output;
use std::fs::File;
use std::io::Write;
use std::rt::Files;
use std::str;

// The path of a folder's file, put together in a buffer; nothing where there is no room for it or it is not UTF-8.
fn path_of<'a>(folder: &[u8], file: &[u8], room: &'a mut [u8]) -> Option<&'a str>
    ensures { IfSome result (λ path. (path.now ≡ folder.now ++ file.now) × (length path.now ≤ length room.old)) }
{
    let n = folder.len() + file.len();
    if room.len() < n {
        return None;
    }
    words::put_bytes(room, 0, folder);
    words::put_bytes(room, folder.len(), file);
    let Ok(path) = str::from_utf8(&room[..n]) else {
        return None;
    };
    Some(path)
}

// Reads a folder's file to the front of a buffer; the number of bytes. No such file is as an empty one: 0.
fn load<R: Files>(rt: &R, folder: &[u8], file: &[u8], buffer: &mut [u8]) -> usize
    ensures { IsPrefixLen result buffer.new }
{
    let mut room = [0u8; 64];
    let Some(path) = path_of(folder, file, &mut room) else {
        return 0;
    };
    let Ok(mut file) = File::open(rt, path) else {
        return 0;
    };
    read_full(&mut file, buffer)
}

// The calls on the ring whose page is stored in a folder: a transmit ring, or else a receive ring.
fn run<R: Files, W: Write>(
    rt: &R,
    out: &mut Output<W>,
    folder: &[u8],
    grants: &[u8],
    window: &mut [u8],
) {
    let mut page = [0u8; ring::PAGE_SIZE];
    if load(rt, folder, b"/tx-ring.bin", &mut page) != 0 {
        calls::transmit(out, folder, &mut page, grants, window);
    } else {
        load(rt, folder, b"/rx-ring.bin", &mut page);
        calls::receive(out, folder, &mut page, grants, window);
    }
}

// Room for the largest window.
fn room() -> [u8; 1048576]
    ensures { 1048576 ≡ length result }
{
    [0; 1048576]
}

// The same with the grant table and the window that are stored there.
pub fn replay<R: Files, W: Write>(rt: &R, out: &mut Output<W>, folder: &[u8]) {
    let mut grants = [0u8; 65536];
    let mut window = room();
    let g = load(rt, folder, b"/grants.bin", &mut grants);
    let w = load(rt, folder, b"/window.bin", &mut window);
    run(rt, out, folder, &grants[..g], &mut window[..w]);
}
