// The text of a bench: what a line asks of a meter, and the line that answers it.
#![tactic(auto)]

pub mod answering;
pub mod asking;
