//! One query against one trace: the windows that match, found through any filter.
#![tactic(auto)]

mod compare;
pub mod examples;
pub mod matches;
pub mod refusal;
pub mod scan;

// A question is what a filter is set for, and stands with the filters; a search names it too.
pub use filters::question;
