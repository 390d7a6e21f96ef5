// Any list of entries and spends at a meter, with the law over all of them.
#![tactic(auto)]

pub mod calls;
pub mod keeping;
pub mod ledger;
pub mod running;
mod steps;
