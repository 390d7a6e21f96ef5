// The till: it draws numbers, and issues or voids each.
#![tactic(auto)]

pub mod counts;
pub mod drawn;
pub mod selling;
