// The meter: fitted, when it takes keys and no entries, and in service, when it takes entries, spends and questions and no keys.
#![tactic(auto)]

pub mod answers;
pub mod calls;
pub mod fitted;
pub mod parts;
pub mod service;
