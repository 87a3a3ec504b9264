//! The catalogue of a collection: a row for each standing trace, and what its calls are refused for.
#![tactic(auto)]

pub mod catalog;
pub mod gap;
pub mod refusal;
pub mod row;
pub mod rows;
