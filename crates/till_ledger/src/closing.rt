// A ledger taken apart.
ghost use Rattle.std.specs.Prelude.{◌≡◌, vec_len};
ghost use Rattle.till_ledger.specs.Closing.{voided_till};

use meter::service::Meter;
use till::drawn::DrawnNumber;
use till::selling::Till;

// Till and meter with the numbers that are still in hand.
pub struct Closed<S, C, A> {
    pub till: Till<C, A>,
    pub meter: Meter<S, C, A>,
    pub hand: Vec<DrawnNumber>,
}

// Voids each number of a hand.
pub fn void_all<C, A>(till: &mut Till<C, A>, mut hand: Vec<DrawnNumber>)
    ensures { till.new ≡ voided_till till.old (vec_len hand) }
{
    // What the till answers fits its width; nothing else says so of a field behind a `&mut`.
    let _before = till.counts().voids();
    // By `pop`, as std makes an iterator only of what can be let go.
    while let Some(drawn) = hand.pop() {
        till.void(drawn);
    }
    hand.destroy_empty();
}
