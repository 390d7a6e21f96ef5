// Any list of draws, issues, voids, entries and spends at a till and a meter, with the law over all of them.
#![tactic(auto)]

pub mod closing;
mod desk;
mod hand;
pub mod keeping;
pub mod ledger;
pub mod running;
mod steps;
