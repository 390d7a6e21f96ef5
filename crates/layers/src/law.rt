// Laws of layers over lists of writes. Each law is the contract of a function, for any store below.
ghost use Rattle.layers.specs.Lag.{LagLaw};
ghost use Rattle.layers.specs.Passing.{PassingLaw};

use store::Store;

// How far a write-behind layer runs ahead: by fewer writes than its length, each of which lowered the credit.
pub fn lag_law<S: Store>() -> u8
    ensures { LagLaw S.kept S.writes S.after }
{
    0
}

// A quota passes one write less after each that is done, whatever the store below makes of it.
#[tactic(auto, using(crate::proofs::Passing::passing))]
pub fn passing_law<S: Store>() -> u8
    ensures { PassingLaw S.after }
{
    0
}
