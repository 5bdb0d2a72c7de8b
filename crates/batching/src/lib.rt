// Many takes in one call, on a ring and its list of held packets. The list is looked over once.
#![tactic(auto)]

ghost use Rattle.std.specs.Prelude.{◌≡◌, Some, false, ◌≤◌, ◌<◌, length, not, position};
ghost use Rattle.held.specs.declared.Held.{Held};
ghost use Rattle.held.specs.Records.{in_use, full, vacancy};
ghost use Rattle.batch.specs.Batch.{begun, batch};
ghost use Rattle.batching.specs.Course.{KeptAt, Begins, InCourse, GoesOn, Steps, Batched};

use held::Held;
use listing::Batch;
use reporting::Words;
use transmit::Queue;

// The place of the first free record, if one is free.
fn first_free(list: &[Held]) -> Option<usize>
    ensures { result ≡ position (λ h. not (in_use h)) list.now }
{
    list.iter().position(|h| h.is_free())
}

// Keeps the record of a take, if it takes one, in the first free one's place; the place of the first free record then.
fn keep(list: &mut [Held], free: Option<usize>, kept: Option<Held>) -> Option<usize>
    requires { (h : Held) → kept ≡ Some h → (full list.old ≡ false) × (free ≡ vacancy list.old) }
    ensures { KeptAt list.old free kept result list.new }
{
    let Some(held) = kept else {
        return free;
    };
    let at = free?;
    records::add(list, at, held);
    let next = first_free(&list[at..])?;
    Some(at + next)
}

// The numbers before the first take. Where none is to be made the list is not looked at.
fn begin(list: &[Held], queue: Queue, most: u32) -> Batch
    ensures { Begins queue most list.now result }
{
    if most == 0 {
        return Batch::new(queue, None);
    }
    let found = glancing::look_over(list, queue.consumed, queue.replied);
    Batch::new(queue, found)
}

// One take more; whether it takes a packet, so that another may follow.
fn take_next(
    list: &mut [Held],
    batch: &mut Batch,
    grants: &[u8],
    window: &[u8],
    ring: &mut [u8],
    frame: &mut [u8],
    results: &mut [Words],
) -> bool
    requires { InCourse batch.old list.old frame.old × (batch.old.count < length results.old) × (batch.old.count < 256) }
    ensures { GoesOn result batch.new list.new frame.new
        × Steps grants.now window.now batch.old ring.old list.old frame.old results.old
        result batch.new ring.new list.new frame.new results.new }
{
    let taken = batch.take_listed(grants, window, ring, frame, results);
    let free = keep(list, batch.free, taken.record);
    batch.advance(taken, free);
    taken.record.is_some()
}

// Up to `most` takes one after another, each lent what is left of the frame buffer; the first that takes nothing is the last.
pub fn take_many(
    list: &mut [Held],
    queue: Queue,
    most: u32,
    grants: &[u8],
    window: &[u8],
    ring: &mut [u8],
    frame: &mut [u8],
    results: &mut [Words],
) -> Batch
    requires { (most ≤ length results.old) × (most ≤ 256) }
    ensures { Batched (batch grants.now window.now most (begun queue ring.old frame.old list.old)) results.old
        result ring.new list.new frame.new results.new }
{
    let mut batch = begin(list, queue, most);
    for _ in 0..most {
        if !take_next(list, &mut batch, grants, window, ring, frame, results) {
            break;
        }
    }
    batch
}
