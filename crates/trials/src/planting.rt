//! Matches made on purpose.
use draws::Draws;

/// The most codes that are drawn anew in a planted stretch: with none it matches whole, and with more it seldom would.
const MOST_CHANGES: usize = 3;

/// Copies a stretch of the query into the trace, both somewhere, and changes a few of its codes there.
pub fn plant(draws: &mut Draws, alphabet: u16, query: &[u16], trace: &mut [u16]) {
    let longest = query.len().min(trace.len());
    if longest == 0 {
        return;
    }
    let len = draws.between(1, longest);
    let from = draws.up_to(query.len() - len);
    let to = draws.up_to(trace.len() - len);
    let stretch = &mut trace[to..to + len];
    stretch.copy_from_slice(&query[from..from + len]);
    change(draws, alphabet, stretch);
}

/// Draws a few codes of a stretch anew.
fn change(draws: &mut Draws, alphabet: u16, stretch: &mut [u16]) {
    for _ in 0..draws.up_to(MOST_CHANGES) {
        let at = draws.up_to(stretch.len().saturating_sub(1));
        let code = draws.code(alphabet);
        if let Some(place) = stretch.get_mut(at) {
            *place = code;
        }
    }
}
