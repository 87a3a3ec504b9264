//! The collection of traces, and every call of it.
#![tactic(auto)]

pub mod accession;
pub mod ask;
pub mod collection;
pub mod declined;
pub mod examples;
pub mod loans;
mod memory;
pub mod opening;
mod posed;
pub mod reading;
pub mod report;
mod searching;
pub mod slip;
pub mod withdrawal;
