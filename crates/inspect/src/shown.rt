//! How a kind of sample is shown.
ghost use Rattle.std.specs.Prelude.{◌≡◌, map, length, slice_index};
ghost use Rattle.trace.specs.declared.kind.KindName.{KindName};
ghost use Rattle.inspect.specs.Labels.{labels};
ghost use Rattle.std.proofs.Common.{rules};

use trace::kind::KindName;
use trace::pulse::Pulse;
use trace::sample::Sample;
use trace::stroke::Stroke;

/// A kind's name.
// By a match, and no constant of `Shown`: a kind is told by name here, as in a file.
pub(crate) fn title(kind: KindName) -> &'static str
    ensures is { result.now ≡ (labels kind).title }
{
    match kind {
        KindName::Pulse => "pulse",
        KindName::Stroke => "stroke",
    }
}

/// The names of a kind's fields.
pub(crate) fn field_names(kind: KindName) -> &'static [&'static str]
    ensures is { map (λ name. name.now) result.now ≡ (labels kind).names }
{
    match kind {
        KindName::Pulse => &["class"],
        KindName::Stroke => &["drive", "recovery", "slack"],
    }
}

/// A kind of sample whose fields are shown, by the names that its kind has for them.
pub trait Shown: Sample {
    /// The value of a field; past the last field it is 0.
    fn value(&self, field: usize) -> u8
        ensures is { result ≡ slice_index (Self.kind.fields self.now) field };

    ghost numbered: { (labels Self.KIND).number ≡ Self.kind.number };

    ghost counted: { length (labels Self.KIND).names ≡ length Self.kind.tops };
}

impl Shown for Pulse {
    ghost numbered = { Prim.search rules };

    ghost counted = { Prim.search rules };

    fn value(&self, field: usize) -> u8 {
        match field {
            0 => self.class(),
            _ => 0,
        }
    }
}

impl Shown for Stroke {
    ghost numbered = { Prim.search rules };

    ghost counted = { Prim.search rules };

    fn value(&self, field: usize) -> u8 {
        match field {
            0 => self.drive(),
            1 => self.recovery(),
            2 => self.slack(),
            _ => 0,
        }
    }
}
