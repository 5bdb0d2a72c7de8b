// Document 01's examples that are run and not proved: transmit rings on pages that are made here.
ghost use Rattle.std.specs.Prelude.{◌≡◌, ◌+◌, ◌≤◌, ◌<◌, length};
ghost use Rattle.ring.specs.Ring.{page_size};
ghost use Rattle.netif.specs.Slot.{slot_width, slot_count};

use crate::calls;
use lines::output::Output;
use netif::DataSlot;
use ring::Page;
use std::io::Write;

const REQ_PROD: usize = 0;

const REQ_EVENT: usize = 4;

const RSP_PROD: usize = 8;

const RSP_EVENT: usize = 12;

const PAGES: u32 = 18;

// A grant word's bytes, and where in it the length of its range stands.
const GRANT_WORD: usize = 8;

const RANGE_LENGTH: usize = 6;

// A page without slots: so many are posted from a counter on, and each side asks for an event at the next.
fn ring_page(consumed: u32, posted: u32) -> Page {
    let mut page = [0u8; ring::PAGE_SIZE];
    let next = ring::ahead(consumed, 1);
    words::put_u32(&mut page, REQ_PROD, ring::ahead(consumed, posted));
    words::put_u32(&mut page, REQ_EVENT, next);
    words::put_u32(&mut page, RSP_PROD, consumed);
    words::put_u32(&mut page, RSP_EVENT, next);
    page
}

// Where slot n stands.
fn slot_place(n: u32) -> usize
    ensures { result + slot_width ≤ page_size }
{
    ring::place::<DataSlot>(n)
}

// What differs in an example's data slots: their flags, and where their bytes stand in a page.
#[derive(Clone, Copy)]
struct Piece {
    offset: u16,
    flags: u16,
    size: u16,
}

// Data slot k of an example whose slots start at a counter.
fn put_data(page: &mut Page, first: u32, k: u16, piece: Piece)
    requires { k < slot_count }
{
    let at = slot_place(ring::ahead(first, k as u32));
    words::put_u32(page, at, k as u32 % PAGES);
    words::put_u16(page, at + 4, piece.offset);
    words::put_u16(page, at + 6, piece.flags);
    words::put_u16(page, at + 8, 1000 + k);
    words::put_u16(page, at + 10, piece.size);
}

// Data slots of an example from one number up to another, all alike.
fn put_alike(page: &mut Page, first: u32, from: u16, to: u16, piece: Piece)
    requires { (from ≤ to) × (to ≤ slot_count) }
{
    for k in from..to {
        put_data(page, first, k, piece);
    }
}

// An extra of a type, in slot 1: gso size 1460, gso type 1.
fn put_extra(page: &mut Page, kind: u8) {
    let at = slot_place(1);
    page[at] = kind;
    words::put_u16(page, at + 2, 1460);
    page[at + 4] = 1;
}

// A table of 18 grants: reference g grants the whole of page g.
fn grant_table() -> [u8; 144]
    ensures { 144 ≡ length result }
{
    let mut grants = [0u8; 144];
    for g in 0..PAGES {
        let at = GRANT_WORD * (g as usize);
        words::put_u32(&mut grants, at, 4 * g + 3);
        words::put_u16(&mut grants, at + RANGE_LENGTH, 4096);
    }
    grants
}

// The pages that it grants.
fn granted_pages() -> [u8; 73728]
    ensures { 73728 ≡ length result }
{
    let mut window = [0u8; 73728];
    calls::fill(&mut window, 0);
    window
}

// The calls on a page.
fn run<W: Write>(out: &mut Output<W>, name: &[u8], page: &mut Page) {
    let grants = grant_table();
    let window = granted_pages();
    calls::transmit(out, name, page, &grants, &window);
}

// 256 packets of one slot.
fn singles<W: Write>(out: &mut Output<W>, name: &[u8], posted: u32) {
    let first: u32 = 4294967290;
    let mut page = ring_page(first, posted);
    put_alike(
        &mut page,
        first,
        0,
        256,
        Piece {
            offset: 100,
            flags: 0,
            size: 60,
        },
    );
    run(out, name, &mut page);
}

// Eighteen data slots, the last with these flags.
fn eighteen<W: Write>(out: &mut Output<W>, name: &[u8], flags: u16) {
    let mut page = ring_page(250, 18);
    put_data(
        &mut page,
        250,
        0,
        Piece {
            offset: 0,
            flags: 4,
            size: 1760,
        },
    );
    put_alike(
        &mut page,
        250,
        1,
        17,
        Piece {
            offset: 0,
            flags: 4,
            size: 100,
        },
    );
    put_data(
        &mut page,
        250,
        17,
        Piece {
            offset: 0,
            flags,
            size: 100,
        },
    );
    run(out, name, &mut page);
}

// Three data slots, of 5000, 1000 and 500 bytes.
fn three<W: Write>(out: &mut Output<W>, name: &[u8]) {
    let mut page = ring_page(0, 3);
    put_data(
        &mut page,
        0,
        0,
        Piece {
            offset: 596,
            flags: 4,
            size: 5000,
        },
    );
    put_data(
        &mut page,
        0,
        1,
        Piece {
            offset: 0,
            flags: 4,
            size: 1000,
        },
    );
    put_data(
        &mut page,
        0,
        2,
        Piece {
            offset: 0,
            flags: 0,
            size: 500,
        },
    );
    run(out, name, &mut page);
}

// A data slot of 14 bytes.
fn one<W: Write>(out: &mut Output<W>, name: &[u8]) {
    let mut page = ring_page(0, 1);
    put_data(
        &mut page,
        0,
        0,
        Piece {
            offset: 0,
            flags: 0,
            size: 14,
        },
    );
    run(out, name, &mut page);
}

// A data slot and an extra of a type.
fn extra<W: Write>(out: &mut Output<W>, name: &[u8], kind: u8) {
    let mut page = ring_page(0, 2);
    put_data(
        &mut page,
        0,
        0,
        Piece {
            offset: 0,
            flags: 8,
            size: 60,
        },
    );
    put_extra(&mut page, kind);
    run(out, name, &mut page);
}

// All of them, in FORMAT.md's order.
pub fn replay<W: Write>(out: &mut Output<W>) {
    singles(out, b"posted-256", 256);
    singles(out, b"posted-257", 257);
    eighteen(out, b"eighteen-slots", 0);
    eighteen(out, b"eighteen-slots-more", 4);
    three(out, b"offset-596");
    one(out, b"total-14");
    extra(out, b"extra-type-0", 0);
    extra(out, b"extra-type-2", 2);
}
