// Fields of so many bits each, the highest first, in one word.
ghost use Rattle.std.specs.Prelude.{◌≡◌, ℕ, ◌^◌, ◌<◌, List, length};
ghost use Rattle.token.specs.Widths.{total, packed, unpacked, Fit, Packs};

// The word that holds the values, each in as many bits as its width says.
pub(crate) fn pack(widths: &[u32], values: &[u64]) -> u64
    requires fits { Fit widths.now values.now }
    requires room { total widths.now < 64 }
    ensures value { result ≡ packed widths.now values.now }
    ensures bound { result < 2 ^ total widths.now }
{
    let mut word = 0;
    for (width, value) in widths.iter().zip(values) {
        word = (word << *width) + *value;
    }
    word
}

// The values that a word holds; what lies above the fields does not matter.
pub(crate) fn unpack<const N: usize>(widths: &[u32; N], word: u64) -> [u64; N]
    requires long { length widths.now ≡ N }
    requires room { total widths.now < 64 }
    ensures { result ≡ unpacked widths.now word }
{
    let mut fields = [0; N];
    let mut left = word;
    for (i, width) in widths.iter().enumerate().rev() {
        fields[i] = left % (1 << *width);
        left >>= *width;
    }
    fields
}

// Packing and unpacking undo one another, whatever the widths.
#[tactic(auto, using(crate::proofs::Packs::packs))]
pub fn packing_law() -> u8
    ensures { (ws : List ℕ) → Packs ws }
{
    0
}
