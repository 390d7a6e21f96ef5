// What a slip carries, in bits: its blocks with their fields, and rate prices in data parts.
#![tactic(auto)]

pub mod fields;
pub mod first;
pub mod further;
pub mod limits;
pub mod multiplier;
pub mod parts;
pub mod rate_layout;
pub mod rates;
pub mod shape;
pub(crate) mod size;
pub mod subclass;
pub mod tariff;
