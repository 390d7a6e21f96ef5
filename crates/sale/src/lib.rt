// What a sale comes to at a till: a refusal, or the slip that is printed for it.
#![tactic(auto)]

mod checking;
pub mod orders;
pub mod printing;
