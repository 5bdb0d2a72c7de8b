// The records of held packets in the list that a host lends: taking, finishing and freeing one.
#![tactic(auto)]

ghost use Rattle.std.specs.Prelude.{◌≡◌, ◌<◌, length, get_or, set};
ghost use Rattle.held.specs.Records.{free};
ghost use Rattle.records.specs.Finished.{finished_as};

use held::Held;

// The record at a place is taken for a packet.
pub fn add(list: &mut [Held], at: usize, held: Held)
    requires { at < length list.old }
    ensures { list.new ≡ set list.old at held }
{
    list[at] = held;
}

// The packet of the record at a place is finished with a status.
pub fn finish(list: &mut [Held], at: usize, status: u32)
    requires { at < length list.old }
    ensures { list.new ≡ set list.old at (finished_as status (get_or list.old at free)) }
{
    list[at] = Held {
        status,
        finished: 1,
        ..list[at]
    };
}

// The record at a place is freed.
pub fn release(list: &mut [Held], at: usize)
    requires { at < length list.old }
    ensures { list.new ≡ set list.old at free }
{
    list[at] = Held::FREE;
}
