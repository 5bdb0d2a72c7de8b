// Runs of slots to compare the readers on: off a stored ring page, or generated, packets laid slot by slot, of which a few slots stay as
// they were drawn.
#![tactic(auto)]

mod draw;

ghost use Rattle.std.specs.Prelude.{◌≡◌, ◌+◌, ◌*◌, ◌/◌, ◌%◌, ◌≤◌, length, take, if◌then◌else◌};
ghost use Rattle.ring.specs.Ring.{rsp_prod};
ghost use Rattle.netif.specs.Slot.{slot_width, slot_count};
ghost use Rattle.runs.specs.Stored.{Taken};

use netif::DataSlot;
use ring::{Page, RingSlot};

const RSP_PROD: usize = 8;

// The counter at which a stored ring was left: all slots consumed have their replies.
pub fn counter(page: &Page) -> u32
    ensures { result ≡ rsp_prod page.now }
{
    words::u32_at(page, RSP_PROD)
}

// Copies so many slots of a page, from a counter on, to the front of a run.
pub fn take(page: &Page, from: u32, slots: u32, run: &mut [u8])
    requires { (slots ≤ slot_count) × (length run.old ≡ slot_width * slot_count) }
    ensures { Taken page.now from slots run.new }
{
    for k in 0..slots {
        let slot = ring::slot::<DataSlot>(page, ring::ahead(from, k));
        words::put_bytes(run, DataSlot::WIDTH * (k as usize), slot);
    }
}

// The most later data slots and extras of a packet, and of how many slots in 256 the bytes stay as drawn.
#[derive(Clone, Copy)]
pub struct Setting {
    pub later: u8,
    pub extras: u8,
    pub flaws: u32,
}

// The number drawn last, and the extras and later data slots that the packet still owes.
#[derive(Clone, Copy)]
pub struct Due {
    pub drawn: u32,
    pub extras: u32,
    pub later: u32,
}

// The low flags of a data slot: bit 2 says that more data follows, and bit 3 that an extra does.
fn data_flags(drawn: u8, more: bool, extra: bool) -> u8
    ensures { result ≡ 16 * (drawn / 16) + 8 * (if extra then 1 else 0) + 4 * (if more then 1 else 0) + drawn % 4 }
{
    16 * (drawn / 16) + 8 * u8::from(extra) + 4 * u8::from(more) + drawn % 4
}

// The flags of an extra: bit 0 says that another follows.
fn extra_flags(drawn: u8, another: bool) -> u8
    ensures { result ≡ 2 * (drawn / 2) + (if another then 1 else 0) }
{
    2 * (drawn / 2) + u8::from(another)
}

// Draws a slot's bytes, of which the first is at most 3; the number drawn last.
fn put_drawn(run: &mut [u8], at: usize, x: u32) -> u32
    requires { at + slot_width ≤ length run.old }
{
    let a = draw::next(x);
    let b = draw::next(a);
    let c = draw::next(b);
    words::put_u32(run, at, 256 * (a / 256) + a % 4);
    words::put_u32(run, at + 4, b);
    words::put_u32(run, at + 8, c);
    c
}

// Makes a drawn slot a data slot.
fn put_data(run: &mut [u8], at: usize, more: bool, extra: bool)
    requires { at + slot_width ≤ length run.old }
{
    let drawn = run[at + 6];
    run[at + 6] = data_flags(drawn, more, extra);
}

// Makes a drawn slot an extra of type 1.
fn put_extra(run: &mut [u8], at: usize, another: bool)
    requires { at + slot_width ≤ length run.old }
{
    let drawn = run[at + 1];
    run[at] = 1;
    run[at + 1] = extra_flags(drawn, another);
}

// A packet's numbers of extras and of later data slots, drawn in this order.
fn packet(x: u32, setting: Setting) -> Due {
    let a = draw::next(x);
    let b = draw::next(a);
    Due {
        drawn: b,
        extras: draw::share(a, setting.extras),
        later: draw::share(b, setting.later),
    }
}

// Makes a drawn slot the next one of its packet, or a new packet's first where the packet owes none.
fn put_next(run: &mut [u8], at: usize, due: Due, sound: bool, setting: Setting) -> Due
    requires { at + slot_width ≤ length run.old }
{
    if 0 < due.extras {
        let extras = due.extras - 1;
        if sound {
            put_extra(run, at, 0 < extras);
        }
        return Due { extras, ..due };
    }
    if 0 < due.later {
        let later = due.later - 1;
        if sound {
            put_data(run, at, 0 < later, false);
        }
        return Due { later, ..due };
    }
    let fresh = packet(due.drawn, setting);
    if sound {
        put_data(run, at, 0 < fresh.later, 0 < fresh.extras);
    }
    fresh
}

// Lays slot i: its bytes are drawn, then whether they stay, and else they are made the next slot.
fn put_slot(run: &mut [u8], i: usize, due: Due, setting: Setting) -> Due
    requires { slot_width * i + slot_width ≤ length run.old }
{
    let at = DataSlot::WIDTH * i;
    let x = draw::next(put_drawn(run, at, due.drawn));
    let sound = setting.flaws <= x % 256;
    put_next(run, at, Due { drawn: x, ..due }, sound, setting)
}

// Lays so many slots.
fn put_slots(run: &mut [u8], slots: usize, x: u32, setting: Setting)
    requires { slot_width * slots ≤ length run.old }
{
    let mut due = Due {
        drawn: x,
        extras: 0,
        later: 0,
    };
    for i in 0..slots {
        due = put_slot(run, i, due, setting);
    }
}

// The bytes of a run by its number: of sixteen runs one has no slot, one 256, one 257 and one a part of a slot at its end.
fn bytes(number: u32, x: u32) -> usize
    ensures { result ≤ slot_width * (slot_count + 1) }
{
    let drawn = DataSlot::WIDTH * ((x % (DataSlot::COUNT + 1)) as usize);
    match number % 16 {
        0 => 0,
        1 => DataSlot::WIDTH * (DataSlot::COUNT as usize),
        2 => DataSlot::WIDTH * (DataSlot::COUNT as usize + 1),
        3 => drawn + 1 + (x % 11) as usize,
        _ => drawn,
    }
}

// Lays a run at the front of a buffer; its number of bytes.
pub fn make(number: u32, setting: Setting, run: &mut [u8]) -> usize
    requires { length run.old ≡ slot_width * (slot_count + 1) }
    ensures within { result ≤ length run.new }
    ensures front { result ≡ length (take result run.new) }
{
    let x = draw::first(number);
    let n = bytes(number, x);
    put_slots(run, n / DataSlot::WIDTH, x, setting);
    n
}
