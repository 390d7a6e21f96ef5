// Layers over a store. Each is a store again, over any store below it, and gives the store below back.
#![tactic(auto)]

pub mod law;
pub mod length;
pub mod making;
pub mod quota;
pub mod write_behind;
