// The image of a record: the record and the writes left, in 68 bytes of tagged fields.
#![tactic(auto)]

pub(crate) mod array;
pub mod content;
pub mod field;
pub mod format;
pub mod law;
pub mod reading;
pub(crate) mod tariff;
pub(crate) mod writing;
