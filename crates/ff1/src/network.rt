// The ten rounds on two halves, and back.
ghost use Rattle.std.specs.Prelude.{◌≡◌, ◌+◌, ◌-◌, ◌*◌, ◌%◌, ◌^◌, ◌<◌, ◌≤◌};
ghost use Rattle.aes.specs.Keyed.{key_of};
ghost use Rattle.feistel.specs.Feistel.{halves, whole};
ghost use Rattle.ff1.specs.Sizes.{Sized, Within};
ghost use Rattle.ff1.specs.Network.{masked, ten_rounds, ten_back, through, back_through};

use crate::rounds::Rounds;
use aes::Aes128;
use chaining::BlockMap;

// A key and what was prepared for its rounds.
#[derive(Clone, Copy)]
pub(crate) struct Network<'a> {
    pub(crate) aes: &'a Aes128,
    pub(crate) rounds: &'a Rounds,
    ghost sized: { Sized rounds.now.sizes },
}

// The sum modulo m.
fn add(a: u64, y: u128, m: u64) -> u64
    requires room { m ≤ 2 ^ 63 }
    requires below { a < m }
    ensures value { result ≡ (a + y) % m }
    ensures bound { result < m }
{
    (a + (y % u128::from(m)) as u64) % m
}

// The difference modulo m.
fn take_away(a: u64, y: u128, m: u64) -> u64
    requires room { m ≤ 2 ^ 63 }
    requires below { a < m }
    ensures value { result ≡ (a + (m - y % m)) % m }
    ensures bound { result < m }
{
    (a + (m - (y % u128::from(m)) as u64)) % m
}

// That halves are within their sizes stands in the contracts, as what is below a size depends on the network: a type of halves would
// hold that network again.
impl Network<'_> {
    // The number of a round, from its index and the half that stays.
    #[tactic(auto, using(crate::proofs::Rounding::round_is))]
    fn round_number(&self, i: u32, half: u64) -> u128
        requires round { i < 10 }
        requires spelled { half < 256 ^ self.now.rounds.now.sizes.bytes }
        ensures { result ≡ masked (key_of self.now.aes.now) self.now.rounds.now.mask self.now.rounds.now.sizes.bytes i half }
    {
        let bytes = self.rounds.sizes.bytes;
        let last = (u128::from(i) << (8 * bytes)) + u128::from(half);
        self.aes.apply(self.rounds.mask ^ last) >> (8 * (12 - (bytes + 3) / 4 * 4))
    }

    // Ten rounds, two at a time.
    fn ten_rounds(&self, left: u64, right: u64) -> (u64, u64)
        requires { Within self.now.rounds.now.sizes (left, right) }
        ensures bound { Within self.now.rounds.now.sizes (result.0, result.1) }
        ensures value { (result.0, result.1) ≡ ten_rounds (key_of self.now.aes.now) self.now.rounds.now (left, right) }
    {
        let m = self.rounds.sizes.left;
        let n = self.rounds.sizes.right;
        let mut p = left;
        let mut q = right;
        // The index is the rounds' own number, and reaches no element.
        for j in 0..5u32 {
            p = add(p, self.round_number(2 * j, q), m);
            q = add(q, self.round_number(2 * j + 1, p), n);
        }
        (p, q)
    }

    // The ten rounds taken back, two at a time. No closure for both directions: each takes the halves in another order, and their contracts
    // cite different maps.
    fn ten_back(&self, left: u64, right: u64) -> (u64, u64)
        requires { Within self.now.rounds.now.sizes (left, right) }
        ensures bound { Within self.now.rounds.now.sizes (result.0, result.1) }
        ensures value { (result.0, result.1) ≡ ten_back (key_of self.now.aes.now) self.now.rounds.now (left, right) }
    {
        let m = self.rounds.sizes.left;
        let n = self.rounds.sizes.right;
        let mut p = left;
        let mut q = right;
        for j in (0..5u32).rev() {
            q = take_away(q, self.round_number(2 * j + 1, p), n);
            p = take_away(p, self.round_number(2 * j, q), m);
        }
        (p, q)
    }

    // A number as its halves.
    fn halves(&self, x: u128) -> (u64, u64)
        requires { x < self.now.rounds.now.sizes.left * self.now.rounds.now.sizes.right }
        ensures bound { Within self.now.rounds.now.sizes (result.0, result.1) }
        ensures value { (result.0, result.1) ≡ halves self.now.rounds.now.sizes.right x }
    {
        let n = u128::from(self.rounds.sizes.right);
        ((x / n) as u64, (x % n) as u64)
    }

    // The number of two halves.
    fn whole(&self, left: u64, right: u64) -> u128
        requires { Within self.now.rounds.now.sizes (left, right) }
        ensures bound { result < self.now.rounds.now.sizes.left * self.now.rounds.now.sizes.right }
        ensures value { result ≡ whole self.now.rounds.now.sizes.right (left, right) }
    {
        u128::from(left) * u128::from(self.rounds.sizes.right) + u128::from(right)
    }

    // A number of any size, reduced to those that have halves.
    pub(crate) fn reduced(&self, x: u128) -> u128
        ensures value { result ≡ x % (self.now.rounds.now.sizes.left * self.now.rounds.now.sizes.right) }
        ensures bound { result < self.now.rounds.now.sizes.left * self.now.rounds.now.sizes.right }
    {
        x % (u128::from(self.rounds.sizes.left) * u128::from(self.rounds.sizes.right))
    }

    // A number through the ten rounds.
    pub(crate) fn forth(&self, x: u128) -> u128
        requires { x < self.now.rounds.now.sizes.left * self.now.rounds.now.sizes.right }
        ensures value { result ≡ through (key_of self.now.aes.now) self.now.rounds.now x }
        ensures bound { result < self.now.rounds.now.sizes.left * self.now.rounds.now.sizes.right }
    {
        let (a, b) = self.halves(x);
        let (c, d) = self.ten_rounds(a, b);
        self.whole(c, d)
    }

    // A number through the ten rounds taken back. Beside `forth` and not one with it: a parameter would only say which of the two is meant.
    pub(crate) fn back(&self, x: u128) -> u128
        requires { x < self.now.rounds.now.sizes.left * self.now.rounds.now.sizes.right }
        ensures value { result ≡ back_through (key_of self.now.aes.now) self.now.rounds.now x }
        ensures bound { result < self.now.rounds.now.sizes.left * self.now.rounds.now.sizes.right }
    {
        let (a, b) = self.halves(x);
        let (c, d) = self.ten_back(a, b);
        self.whole(c, d)
    }
}
