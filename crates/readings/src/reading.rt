//! One file read in both ways, as codes and as samples.
ghost use Rattle.std.specs.Prelude.{◌≡◌, map, length, Decides};
ghost use Rattle.trace.specs.Files.{trace_file};
ghost use Rattle.trace.specs.Reading.{fitted};
ghost use Rattle.readings.specs.Readings.{Says};
ghost use Rattle.readings.specs.declared.reading.Unread.TheVariants.{Refused};

use trace::file::{Header, read_codes, read_samples};
use trace::refusal::Refusal;
use trace::sample::Sample;

/// Why a line is not read as a trace.
#[derive(Clone, Copy, PartialEq, Debug)]
pub enum Unread {
    /// The file is refused.
    Refused(Refusal),
    /// The two ways to read the file have different answers.
    Differ,
    /// The line is not a kind and a file.
    Malformed,
}

impl From<Refusal> for Unread {
    ghost from_gives = { λ refusal unread. unread ≡ Refused refusal };

    fn from(refusal: Refusal) -> Unread {
        Unread::Refused(refusal)
    }
}

/// How a line is answered.
pub type Reading = Result<Header, Unread>;

/// Whether the codes are those of the samples.
fn same_codes<S: Sample>(samples: &[S], codes: &[u16]) -> bool
    ensures { Decides result (map (λ s. S.kind.code (S.kind.fields s)) samples.now ≡ codes.now) }
{
    samples.len() == codes.len()
        && samples
            .iter()
            .zip(codes.iter())
            .all(|(sample, code)| sample.code() == *code)
}

/// Reads a file as codes and as samples, and answers what both say.
pub fn read_both<S: Sample>(file: &[u8], codes: &mut [u16], samples: &mut [S]) -> Reading
    ensures { length codes.old ≡ length samples.old → Says S.kind.code result (fitted (length codes.old) (trace_file S.kind.number S.kind.tops file.now)) codes.new }
{
    let read = read_codes::<S>(file, codes);
    if read != read_samples::<S>(file, samples) {
        return Err(Unread::Differ);
    }
    let header = read?;
    let count = usize::from(header.count);
    if same_codes(&samples[..count], &codes[..count]) {
        Ok(header)
    } else {
        Err(Unread::Differ)
    }
}
