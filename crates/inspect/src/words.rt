//! A refusal in words.
ghost use Rattle.std.specs.Prelude.{◌≡◌, ℕ, List, IfOk, string_bytes};
ghost use Rattle.trace.specs.Refusals.{cause_number, field_number, told_fault};
ghost use Rattle.inspect.specs.AnyFile.{NoneLonger};
ghost use Rattle.inspect.specs.Wordings.{cause_words, field_name, refusal_text, too_long};

use crate::any_kind::LONGEST_FILE;
use std::alloc::{AllocError, Global};
use trace::refusal::{Cause, Fault, Field};

/// What is wrong in a file.
// By a match, and no `Display`: causes and fields are of another crate, and have words only here.
fn cause_words(cause: Cause) -> &'static str
    ensures is { result.now ≡ cause_words (cause_number cause) }
{
    match cause {
        Cause::EndsInsideNumber => "the file ends inside a number",
        Cause::NumberTooLong => "the third byte of a number says that another follows",
        Cause::OutOfRange => "a number is out of its field's range",
        Cause::OtherKind => "the file is of another kind",
        Cause::BytesLeftOver => "bytes are left over behind the last sample",
    }
}

/// The name of a part of a file.
fn field_name(field: Field) -> &'static str
    ensures is { result.now ≡ field_name (field_number field) }
{
    match field {
        Field::Kind => "kind",
        Field::Machine => "machine",
        Field::Count => "count",
        Field::Sample => "sample",
        Field::End => "end",
    }
}

/// Why a file is refused, and where.
pub fn refusal_text(heap: Global, fault: Fault) -> Result<String, AllocError>
    ensures is { IfOk result (λ s. string_bytes s ≡ refusal_text (told_fault fault)) }
{
    let Fault {
        cause,
        place,
        field,
    } = fault;
    let number = cause.number();
    let words = cause_words(cause);
    let part = field.number();
    let name = field_name(field);
    format!(in heap; "refused {number}: {words}\nbyte place {place}, field {part} ({name})\n")
}

/// The refusal of an input that is longer than any trace file.
pub(crate) fn too_long(heap: Global) -> Result<String, AllocError>
    ensures is { IfOk result (λ s. string_bytes s ≡ too_long) }
    ensures true_of_all { (file : List ℕ) → NoneLonger file }
{
    let longest = LONGEST_FILE;
    format!(in heap;
        "refused: the input has more than {longest} bytes, the most that a trace file can have\n"
    )
}
