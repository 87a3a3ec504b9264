//! Refusals that give something back.
use catalog::refusal::Refusal;

/// Why a call was refused, and what it gives back.
pub struct Declined<T> {
    pub refusal: Refusal,
    pub back: T,
}
