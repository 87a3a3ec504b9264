//! What the programs share that search for a query of the console: the parts of an input, why there is no answer, and
//! the text that is printed.
#![tactic(auto)]

pub mod failure;
pub mod input;
pub mod parts;
pub mod refusal;
pub mod table;
