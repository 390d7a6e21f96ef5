// The first block of a slip, and its fields.
ghost use Rattle.std.specs.Prelude.{◌≡◌, if◌then◌else◌, Some, None};
ghost use Rattle.token.specs.Widths.{packed};
ghost use Rattle.token.specs.FirstBlocks.{first_widths, first_fields, first_fits, first_block_of, Small, FirstBlockRoundTrip};

#[derive(Clone, Copy)]
pub struct FirstBlock {
    pub subclass: u8,
    // The low ten bits of the number.
    pub tstn: u16,
    // Which multiplier the amount takes.
    pub config: u8,
    pub amt: u16,
    pub tmac: u32,
}

impl FirstBlock {
    // What lies above the low 61 bits does not matter, so this is no From, which drops nothing.
    pub fn of(block: u64) -> FirstBlock
        ensures value { result ≡ first_block_of block }
        ensures small { Small result }
    {
        FirstBlock {
            subclass: ((block >> 57) % 16) as u8,
            tstn: ((block >> 47) % 1024) as u16,
            config: ((block >> 45) % 4) as u8,
            amt: ((block >> 32) % 8192) as u16,
            tmac: (block % 0x1_0000_0000) as u32,
        }
    }

    // None where a field is wider than its place.
    pub fn pack(self) -> Option<u64>
        ensures { result ≡ (if first_fits self then Some (packed first_widths (first_fields self)) else None) }
    {
        if self.subclass >= 16 || self.tstn >= 1024 || self.config >= 4 || self.amt >= 8192 {
            return None;
        }
        Some(
            (u64::from(self.subclass) << 57)
                + (u64::from(self.tstn) << 47)
                + (u64::from(self.config) << 45)
                + (u64::from(self.amt) << 32)
                + u64::from(self.tmac),
        )
    }
}

// A block that fits is found again in its number, and a number of 61 bits in its block.
pub fn first_block_round_trip() -> u8
    ensures { FirstBlockRoundTrip }
{
    0
}
