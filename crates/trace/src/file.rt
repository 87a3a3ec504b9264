//! Trace files: the kind's number, the machine, the count of samples, and then each sample's fields.
ghost use Rattle.std.specs.Prelude.{◌≡◌, ℕ, ◌≤◌, List, [], ◌∷◌, ◌++◌, map, length, IfOk, Ok, Err};
ghost use Rattle.trace.specs.KindNames.{kind_number};
ghost use Rattle.trace.specs.Kinds.{kinds};
ghost use Rattle.trace.specs.Refusals.{answer, told, told_fault, field_number};
ghost use Rattle.trace.specs.Files.{Read, number_at, fields_at, samples_at, head_of, trace_file};
ghost use Rattle.trace.specs.Spelling.{ReadOrRefused};
ghost use Rattle.trace.specs.Reading.{as_read, head, fitted, counts, codes_over, SamplesOver, MadeOver, Sound, Verified};

use crate::kind::KindName;
use crate::number::number;
use crate::refusal::{Cause, Fault, Field, Refusal};
use crate::sample::{MOST_FIELDS, Sample};

/// The largest number of a machine.
const MACHINE_TOP: u32 = 65_535;
/// The most samples that a trace has.
pub const MOST_SAMPLES: usize = 4_096;

/// What a file says before its samples.
// That a count is 1 to 4,096 is said where a file was read: a field's law would ask it of all who write a header.
#[derive(Clone, Copy, PartialEq, Debug)]
pub struct Header {
    pub machine: u16,
    pub count: u16,
}

/// What was read from a file, and the place of the byte behind it.
#[derive(Clone, Copy)]
struct Parsed<T> {
    value: T,
    next: usize,
}

/// The number of a field at a place of the file, from low to high.
// The file and a place as two: the definitions go by them, and so does each fault, which tells its place from the file's
// start.
fn number_in(
    file: &[u8],
    at: usize,
    low: u32,
    high: u32,
    field: Field,
) -> Result<Parsed<u32>, Fault>
    requires { at ≤ length file.now }
    ensures is { answer (as_read (λ n. n)) told_fault result ≡ number_at low high (field_number field) file.now at }
    ensures lies { IfOk result (λ x. (x.next ≤ length file.now) × (low ≤ x.value) × (x.value ≤ high)) }
{
    let fault = |cause: Cause| Fault {
        cause,
        place: at,
        field,
    };
    let found = number(&file[at..]).map_err(fault)?;
    if !(low..=high).contains(&found.value) {
        return Err(fault(Cause::OutOfRange));
    }
    Ok(Parsed {
        value: found.value,
        next: at + found.size,
    })
}

/// The kind that the file's first number names.
fn read_kind(file: &[u8]) -> Result<Parsed<KindName>, Fault>
    ensures is { answer (as_read kind_number) told_fault result ≡ number_at 1 kinds 0 file.now 0 }
    ensures lies { IfOk result (λ x. x.next ≤ length file.now) }
{
    let found = number_in(file, 0, 0, u8::MAX as u32, Field::Kind)?;
    match KindName::try_from(found.value as u8) {
        Ok(value) => Ok(Parsed {
            value,
            next: found.next,
        }),
        Err(_) => Err(Fault {
            cause: Cause::OutOfRange,
            place: 0,
            field: Field::Kind,
        }),
    }
}

/// The machine and the count of a file of the kind S.
fn read_header<S: Sample>(file: &[u8]) -> Result<Parsed<Header>, Fault>
    ensures is { answer (as_read head) told_fault result ≡ head_of S.kind.number file.now }
    ensures lies { IfOk result (λ x. (x.next ≤ length file.now) × (1 ≤ x.value.count) × (x.value.count ≤ 4096)) }
{
    let kind = read_kind(file)?;
    if kind.value != S::KIND {
        return Err(Fault {
            cause: Cause::OtherKind,
            place: 0,
            field: Field::Kind,
        });
    }
    let machine = number_in(file, kind.next, 1, MACHINE_TOP, Field::Machine)?;
    let count = number_in(file, machine.next, 1, MOST_SAMPLES as u32, Field::Count)?;
    Ok(Parsed {
        value: Header {
            machine: machine.value as u16,
            count: count.value as u16,
        },
        next: count.next,
    })
}

/// The sample at a place of the file.
fn sample_at<S: Sample>(file: &[u8], at: usize) -> Result<Parsed<S>, Fault>
    requires { at ≤ length file.now }
    ensures is { answer (as_read S.kind.fields) told_fault result ≡ fields_at S.kind.tops [] file.now at }
    ensures lies { IfOk result (λ x. x.next ≤ length file.now) }
{
    let mut numbers = [0u16; MOST_FIELDS];
    let mut next = at;
    // The largest value by index: what a `zip` with `iter_mut` writes is not known after its loop.
    for (field, number) in numbers[..S::FIELDS].iter_mut().enumerate() {
        let found = number_in(file, next, 0, S::TOPS[field] as u32, Field::Sample)?;
        *number = found.value as u16;
        next = found.next;
    }
    Ok(Parsed {
        value: S::make(numbers).unwrap(),
        next,
    })
}

/// Reads the whole file through: its header, behind which the samples begin, or its first fault.
fn verify<S: Sample>(file: &[u8]) -> Result<Parsed<Header>, Fault>
    ensures { Verified S.kind.number S.kind.tops file.now result }
{
    let header = read_header::<S>(file)?;
    let mut at = header.next;
    for _ in 0..header.value.count {
        at = sample_at::<S>(file, at)?.next;
    }
    if at < file.len() {
        return Err(Fault {
            cause: Cause::BytesLeftOver,
            place: at,
            field: Field::End,
        });
    }
    Ok(header)
}

/// Writes what `of` makes of each sample of a sound file into the front of `out`.
fn write_each<S: Sample, T: Copy, F: Fn(S) -> T>(
    file: &[u8],
    header: Parsed<Header>,
    out: &mut [T],
    of: F,
)
    requires sound { Sound S.kind.number S.kind.tops file.now header.value header.next }
    requires room { header.value.count ≤ length out.old }
    requires callable { F.IsAlwaysCallable of }
    ensures { MadeOver S.kind.fields (F.post of) (trace_file S.kind.number S.kind.tops file.now) out.old out.new }
{
    let front = &mut out[..header.value.count as usize];
    let mut at = header.next;
    for place in front.iter_mut() {
        let sample = sample_at::<S>(file, at).unwrap();
        *place = of(sample.value);
        at = sample.next;
    }
}

/// Reads a trace file of the kind S: writes what `of` makes of each sample into the front of `out`.
fn read_each<S: Sample, T: Copy, F: Fn(S) -> T>(
    file: &[u8],
    out: &mut [T],
    of: F,
) -> Result<Header, Refusal>
    requires callable { F.IsAlwaysCallable of }
    ensures is { answer head told result ≡ counts (fitted (length out.old) (trace_file S.kind.number S.kind.tops file.now)) }
    ensures put { MadeOver S.kind.fields (F.post of) (fitted (length out.old) (trace_file S.kind.number S.kind.tops file.now)) out.old out.new }
    ensures few { IfOk result (λ h. (1 ≤ h.count) × (h.count ≤ 4096) × (h.count ≤ length out.old)) }
{
    let header = verify::<S>(file)?;
    if out.len() < header.value.count as usize {
        return Err(Refusal::TooShort);
    }
    write_each(file, header, out, of);
    Ok(header.value)
}

/// Reads a trace file of the kind S: writes its samples' codes into the front of `codes`, and answers its machine
/// and count. The file's first fault is told first, then a slice with less room than the file has samples; a
/// refusal leaves `codes` as it was.
pub fn read_codes<S: Sample>(file: &[u8], codes: &mut [u16]) -> Result<Header, Refusal>
    ensures is { answer head told result ≡ counts (fitted (length codes.old) (trace_file S.kind.number S.kind.tops file.now)) }
    ensures put { codes.new ≡ codes_over S.kind.code (fitted (length codes.old) (trace_file S.kind.number S.kind.tops file.now)) codes.old }
    ensures few { IfOk result (λ h. (1 ≤ h.count) × (h.count ≤ 4096) × (h.count ≤ length codes.old)) }
    ensures one { ReadOrRefused S.kind.number S.kind.tops file.now }
{
    read_each(file, codes, |sample: S| sample.code())
}

/// Reads a trace file of the kind S: writes its samples into the front of `out`, and answers its machine and count.
/// It refuses what `read_codes` refuses, and a refusal leaves `out` as it was.
pub fn read_samples<S: Sample>(file: &[u8], out: &mut [S]) -> Result<Header, Refusal>
    ensures is { answer head told result ≡ counts (fitted (length out.old) (trace_file S.kind.number S.kind.tops file.now)) }
    ensures put { SamplesOver S.kind.fields (fitted (length out.old) (trace_file S.kind.number S.kind.tops file.now)) out.old out.new }
    ensures few { IfOk result (λ h. (1 ≤ h.count) × (h.count ≤ 4096) × (h.count ≤ length out.old)) }
{
    read_each(file, out, |sample: S| sample)
}
