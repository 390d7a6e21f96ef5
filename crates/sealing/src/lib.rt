// What till and meter do alike to a slip: settings, nonce, message, tag, and the cipher over the blocks.
#![tactic(auto)]

pub mod making;
mod message;
pub mod opening;
pub mod sealer;
pub mod settings;
pub mod tag;
pub mod through;
