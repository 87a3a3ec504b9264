//! Numbers drawn as if by chance, the same ones in every run.
#![tactic(auto)]

ghost use Rattle.std.specs.Prelude.{◌≡◌, ℕ, ◌+◌, ◌-◌, ◌<◌, ◌≤◌, IfOk, vec_len, slice_index};
ghost use Rattle.draws.specs.Draws.{after, after_all, drawn, drawn_all};

use std::alloc::{AllocError, Global};

/// Knuth's multiplier for linear congruences modulo 2 to the 64.
const MULTIPLIER: u64 = 6_364_136_223_846_793_005;

/// What is added, which has to be odd for every number to come up.
const INCREMENT: u64 = 1_442_695_040_888_963_407;

/// The low bits repeat early, so numbers are taken from those above them.
const LOW_BITS: u32 = 33;

/// A linear congruential generator. The toolchain's crates of generators have others, which would draw other numbers.
#[derive(Clone, Copy)]
pub struct Draws {
    state: u64,
}

impl Draws {
    /// The draws from a seed on. Any seed will do, as long as it stays the same.
    pub fn new(seed: u64) -> Draws
        ensures { result.state ≡ seed }
    {
        Draws { state: seed }
    }

    /// A number from 0 to `top`.
    pub fn up_to(&mut self, top: usize) -> usize
        ensures state { self.new.state ≡ after self.old.state }
        ensures value { result ≡ drawn self.new.state top }
        ensures bound { result ≤ top }
    {
        self.state = self.state.wrapping_mul(MULTIPLIER).wrapping_add(INCREMENT);
        (self.state >> LOW_BITS) as usize % top.saturating_add(1)
    }

    /// A number from `low` to `high`, and `low` where they are the wrong way round.
    pub fn between(&mut self, low: usize, high: usize) -> usize
        ensures state { self.new.state ≡ after self.old.state }
        ensures value { result ≡ low + drawn self.new.state (high - low) }
        ensures low { low ≤ result }
        ensures high { low ≤ high → result ≤ high }
    {
        low.saturating_add(self.up_to(high.saturating_sub(low)))
    }

    /// One of the codes of an alphabet, which are those from 0 on.
    pub fn code(&mut self, alphabet: u16) -> u16
        ensures state { self.new.state ≡ after self.old.state }
        ensures value { result ≡ drawn self.new.state (alphabet - 1) }
        ensures bound { result ≤ alphabet - 1 }
    {
        self.up_to(usize::from(alphabet).saturating_sub(1)) as u16
    }

    /// The next n codes.
    pub fn codes(&mut self, heap: Global, n: usize, alphabet: u16) -> Result<Vec<u16>, AllocError>
        ensures state { IfOk result (λ _. self.new.state ≡ after_all self.old.state n) }
        ensures value { IfOk result (λ v. v.items ≡ drawn_all self.old.state (alphabet - 1) n) }
        ensures bound { IfOk result (λ v. (vec_len v ≡ n) × ((i : ℕ) → i < n → slice_index v.items i ≤ alphabet - 1)) }
    {
        // A loop: a closure changes what it draws from, and its contract says nothing of that.
        let mut codes = Vec::new(heap);
        for _ in 0..n {
            codes.push(self.code(alphabet))?;
        }
        Ok(codes)
    }
}
