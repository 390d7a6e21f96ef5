// Marks as the bits of one number.
ghost use Rattle.std.specs.Prelude.{◌≡◌, ℕ, ◌+◌, ◌-◌, ◌/◌, ◌%◌, ◌^◌, ◌<◌, ◌≤◌, true, ◌&&◌, if◌then◌else◌, ◌==◌, nat_eq, nat_lt};
ghost use Rattle.window.specs.Bits.{bit};

// Whether the bit at `place` is set.
pub(crate) fn is_set(bits: u128, place: u32) -> bool
    requires { place < 128 }
    ensures { result ≡ (bits / 2 ^ place % 2 == 1) }
{
    (bits >> place) % 2 == 1
}

// The bits moved up by `by` places, with the one just below them set where `also` says so. Only the lowest `left` stay.
pub(crate) fn moved(bits: u128, by: u32, also: bool, left: u32) -> u128
    requires up { 0 < by }
    requires few { left ≤ 126 }
    ensures below { result < 2 ^ left }
    ensures bits { (i : ℕ) → i < left → bit result i ≡ (if nat_lt i by then also && (i + 1 == by) else bit bits (i - by)) }
{
    // From 127 places on nothing stays, and a shift has at most 127.
    if by > 126 {
        return 0;
    }
    let up = bits << by;
    let all = if also { up | (1 << (by - 1)) } else { up };
    all % (1 << left)
}

// The bits with the one at `place` set too.
pub(crate) fn with(bits: u128, place: u32, left: u32) -> u128
    requires small { bits < 2 ^ left }
    requires inside { place < left }
    requires few { left ≤ 126 }
    ensures below { result < 2 ^ left }
    ensures bits { (i : ℕ) → bit result i ≡ (if nat_eq i place then true else bit bits i) }
{
    bits | (1 << place)
}
