//! Filters for substring matching with k mismatches: which places of a query and a trace are worth comparing, and the
//! law by which none that matters is dropped.
#![tactic(auto)]

pub mod compare;
pub mod continuous;
pub mod examples;
pub mod filter;
pub mod gapped;
pub mod held;
mod index;
pub mod near;
pub mod number;
pub mod pass_all;
mod power;
pub mod question;
pub mod refusal;
mod row;
mod shape;
pub mod tuples;
