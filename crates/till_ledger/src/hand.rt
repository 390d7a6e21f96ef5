// The numbers in hand.
ghost use Rattle.std.specs.Prelude.{◌≡◌, ◌<◌, ◌==◌, vec_len, vec_capacity, MatchOption, position};
ghost use Rattle.journal.specs.Hands.{held, Gains};

use till::drawn::DrawnNumber;

// Where the number stands in the hand.
fn find(hand: &[DrawnNumber], number: u32) -> Option<usize>
    ensures { result ≡ position (λ d. d.number == number) hand.now }
{
    hand.iter().position(|drawn| drawn.number() == number)
}

// Takes the number out of the hand, if it is there.
pub(crate) fn take_from(hand: &mut Vec<DrawnNumber>, number: u32) -> Option<DrawnNumber>
    ensures found { MatchOption result ((held number hand.old.items ≡ 0) × (hand.new.items ≡ hand.old.items)) (λ d. (d.number ≡ number) × Gains number hand.new.items hand.old.items) }
    ensures capacity { vec_capacity hand.new ≡ vec_capacity hand.old }
{
    let place = find(hand.as_slice(), number)?;
    Some(hand.remove(place))
}

// Puts a number into the hand, which has room for it.
pub(crate) fn put(hand: &mut Vec<DrawnNumber>, drawn: DrawnNumber)
    requires { vec_len hand.old < vec_capacity hand.old }
    ensures gains { Gains drawn.number hand.old.items hand.new.items }
    ensures capacity { vec_capacity hand.new ≡ vec_capacity hand.old }
{
    hand.push_reserved(drawn);
}
