//! Padding: numbers that are written with empty high groups.
ghost use Rattle.std.specs.Prelude.{◌≡◌};
ghost use Rattle.inspect.specs.Paddings.{pads_pair, padded, CountsPadded};

use trace::number::MORE;

/// How many numbers of a trace file are padded: a byte that says that another follows stands before a byte 0.
pub fn padded(file: &[u8]) -> usize
    ensures is { result ≡ padded file.now }
    ensures counts { CountsPadded file.now result }
{
    file.windows(2).filter(|pair| is_padding(pair)).count()
}

/// Whether the second of two bytes pads the first.
fn is_padding(pair: &[u8]) -> bool
    ensures { result ≡ pads_pair pair.now }
{
    matches!(pair, [low, high] if *low >= MORE && *high == 0)
}
