// What an entry of digits carries.

use words::Words;

// The blocks of an entry, one for each group of twenty digits.
pub type Blocks = Words<4>;
