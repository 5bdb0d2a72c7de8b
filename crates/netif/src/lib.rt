// Slots of the network rings: their bytes taken apart.
#![tactic(auto)]

ghost use Rattle.std.specs.Prelude.{◌≡◌};
ghost use Rattle.std.proofs.Common.{lit<, lit≤};
ghost use Rattle.words.specs.Word.{bit};
ghost use Rattle.netif.specs.Slot.{slot_width, slot_count, request_width, request_count};
ghost use Rattle.netif.specs.Decode.{data_of, extra_of, request_of};

use ring::RingSlot;

// The status error of a reply, as 16-bit two's complement.
pub const ERROR: u16 = 65535;

// A data slot of the transmit ring.
#[derive(Clone, Copy)]
pub struct DataSlot {
    pub gref: u32,
    pub offset: u16,
    pub flags: u16,
    pub id: u16,
    pub size: u16,
}

impl RingSlot for DataSlot {
    ghost WIDTH = { slot_width };

    ghost COUNT = { slot_count };

    const WIDTH: usize = 12;

    const COUNT: u32 = 256;

    ghost decoded = { data_of };

    ghost laws = { (lit< tt, lit≤ tt, lit≤ tt) };

    #[tactic(auto, unfolding(crate::specs::Decode::data_of, crate::specs::Slot::gref, crate::specs::Slot::offset, crate::specs::Slot::flags, crate::specs::Slot::ident, crate::specs::Slot::size))]
    fn decode(b: &[u8]) -> Self {
        DataSlot {
            gref: words::u32_at(b, 0),
            offset: words::u16_at(b, 4),
            flags: words::u16_at(b, 6),
            id: words::u16_at(b, 8),
            size: words::u16_at(b, 10),
        }
    }
}

impl DataSlot {
    // The bits of the flags.
    const CHECKSUM_BLANK: u32 = 0;

    const DATA_VALIDATED: u32 = 1;

    const MORE_DATA: u32 = 2;

    const EXTRA_FOLLOWS: u32 = 3;

    // Whether the frame's checksum is blank.
    pub fn checksum_blank(self) -> bool
        ensures { result ≡ bit 0 self.flags }
    {
        words::bit_of(u32::from(self.flags), Self::CHECKSUM_BLANK)
    }

    // Whether the frame's data is validated.
    pub fn data_validated(self) -> bool
        ensures { result ≡ bit 1 self.flags }
    {
        words::bit_of(u32::from(self.flags), Self::DATA_VALIDATED)
    }

    // Whether it announces more data.
    pub fn more_data(self) -> bool
        ensures { result ≡ bit 2 self.flags }
    {
        words::bit_of(u32::from(self.flags), Self::MORE_DATA)
    }

    // Whether it announces an extra.
    pub fn extra_follows(self) -> bool
        ensures { result ≡ bit 3 self.flags }
    {
        words::bit_of(u32::from(self.flags), Self::EXTRA_FOLLOWS)
    }
}

// An extra of the transmit ring. Its type is a number, since a guest may write any byte there and `extra_of` keeps it.
#[derive(Clone, Copy)]
pub struct Extra {
    pub kind: u8,
    pub flags: u8,
    pub gso_size: u16,
    pub gso_type: u8,
}

impl RingSlot for Extra {
    ghost WIDTH = { slot_width };

    ghost COUNT = { slot_count };

    const WIDTH: usize = 12;

    const COUNT: u32 = 256;

    ghost decoded = { extra_of };

    ghost laws = { (lit< tt, lit≤ tt, lit≤ tt) };

    #[tactic(auto, unfolding(crate::specs::Decode::extra_of, crate::specs::Slot::gso_size, crate::specs::Slot::gso_type))]
    fn decode(b: &[u8]) -> Self {
        Extra {
            kind: b[0],
            flags: b[1],
            gso_size: words::u16_at(b, 2),
            gso_type: b[4],
        }
    }
}

impl Extra {
    // The type of an extra that carries gso fields.
    pub const GSO: u8 = 1;

    // The bit of the flags that announces another.
    const ANOTHER: u32 = 0;

    // Whether it announces another.
    pub fn another_follows(self) -> bool
        ensures { result ≡ bit 0 self.flags }
    {
        words::bit_of(u32::from(self.flags), Self::ANOTHER)
    }
}

// A request of the receive ring.
#[derive(Clone, Copy)]
pub struct Request {
    pub id: u16,
    pub gref: u32,
}

impl RingSlot for Request {
    ghost WIDTH = { request_width };

    ghost COUNT = { request_count };

    const WIDTH: usize = 8;

    const COUNT: u32 = 256;

    ghost decoded = { request_of };

    ghost laws = { (lit< tt, lit≤ tt, lit≤ tt) };

    #[tactic(auto, unfolding(crate::specs::Decode::request_of, crate::specs::Slot::request_ident, crate::specs::Slot::request_gref))]
    fn decode(b: &[u8]) -> Self {
        Request {
            id: words::u16_at(b, 0),
            gref: words::u32_at(b, 4),
        }
    }
}
