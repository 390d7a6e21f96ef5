// The law of a Feistel network on numbers: what its rounds do is undone by its rounds taken back, whatever the round function.
#![tactic(auto)]

ghost use Rattle.feistel.specs.Feistel.{Undoes, Redoes, Stays};

// Holds for every radix, every length and every round function.
pub fn feistel_law() -> u8
    ensures undoes { Undoes }
    ensures redoes { Redoes }
    ensures stays { Stays }
{
    0
}
