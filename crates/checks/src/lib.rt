//! Tests of the other crates, here so that those are proved only once.
#![tactic(auto)]

#[cfg(test)]
mod collecting;
#[cfg(test)]
mod filtering;
#[cfg(test)]
mod printing;
#[cfg(test)]
mod searching;
#[cfg(test)]
mod trace_files;
