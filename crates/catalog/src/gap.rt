//! Gaps that are closed, and places that are blanked.
ghost use Rattle.std.specs.Prelude.{◌≡◌, length, replicate};
ghost use Rattle.catalog.specs.Gaps.{closed};

/// Closes the gap of `len` items from `at` on, among the first `used`: what lies behind it moves down. What lies past the
/// moved items stays. Where the gap is not among them, nothing moves.
pub fn close_gap<T: Copy>(items: &mut [T], at: usize, len: usize, used: usize)
    ensures { items.new ≡ closed items.old at len used }
{
    if used > items.len() || at > used || len > used - at {
        return;
    }
    items.copy_within(at + len..used, at);
}

/// Writes one value over all items.
pub fn blank_out<T: Copy>(items: &mut [T], value: T)
    ensures { items.new ≡ replicate (length items.old) value }
{
    // No `fill`: it asks that a clone cannot fail, and `Copy` does not say so.
    for item in items.iter_mut() {
        *item = value;
    }
}
