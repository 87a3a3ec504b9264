//! Kinds of samples, numbers, and trace files.
#![tactic(auto)]

pub mod examples;
pub mod file;
pub mod kind;
pub mod limits;
pub mod number;
pub mod pulse;
pub mod refusal;
pub mod sample;
pub mod stroke;
