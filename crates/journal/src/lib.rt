// What is asked of a till and a meter, what is answered, and the law over a journal of it.
#![tactic(auto)]

pub mod answers;
pub mod calls;
