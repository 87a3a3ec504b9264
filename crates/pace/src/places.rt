//! How many places a filter passes.
ghost use Rattle.std.specs.Prelude.{length};
ghost use Rattle.pace.specs.Places.{Counted};

use filters::filter::Filter;
use filters::refusal::Refusal;

/// Marks the first rows of a trace, each over the one before it, and answers how many places are passed in all.
pub fn count_places<F: Filter>(
    filter: &F,
    trace: &[u16],
    rows: u16,
    marks: &mut [u8],
) -> Result<usize, Refusal>
    ensures { Counted (F.stands filter.now) trace.now rows (length marks.old) result }
{
    // A loop: of a sum of results no contract says which row is refused.
    let mut places = 0;
    for j in 0..rows {
        places += filter.mark_row(trace, j as usize, marks)?;
    }
    Ok(places)
}
