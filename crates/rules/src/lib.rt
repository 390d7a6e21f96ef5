// The rules of an entry in words, and the laws that every entry is judged by them, and that their tests tell them at any standing.
#![tactic(auto)]

ghost use Rattle.rules.specs.InWords.{RulesDecide, RulesAtAnyStanding};

// An entry is taken where every rule is kept, and refused for the first that is broken; and at any standing, be it that of a record
// or not, the tests of the rules tell which are kept: the laws are this function's contract.
pub fn rules_decide() -> u8
    ensures entries { RulesDecide }
    ensures standings { RulesAtAnyStanding }
{
    0
}
