//! The worked examples of docs/FORMAT.md, run through the reader.
use trace::examples::padded_pulses;
use trace::file::{Header, read_codes};
use trace::pulse::Pulse;
use trace::refusal::{Cause, Fault, Field, Refusal};
use trace::stroke::Stroke;

/// A fault of a file.
fn fault(cause: Cause, place: usize, field: Field) -> Refusal {
    Refusal::File(Fault {
        cause,
        place,
        field,
    })
}

#[test]
fn reads_pulses(rt: HostRuntime) {
    let mut codes = [9; 4];
    let header = read_codes::<Pulse>(&[0x01, 0xac, 0x02, 0x03, 0x05, 0x13, 0x00], &mut codes);
    assert_eq!(rt;
        header,
        Ok(Header {
            machine: 300,
            count: 3,
        })
    );
    assert!(rt; codes[0] == 5 && codes[1] == 19 && codes[2] == 0 && codes[3] == 9);
}

#[test]
fn reads_padded_pulses_alike(rt: HostRuntime) {
    let mut codes = [9; 4];
    let header = read_codes::<Pulse>(&padded_pulses(), &mut codes);
    assert_eq!(rt;
        header,
        Ok(Header {
            machine: 300,
            count: 3,
        })
    );
    assert!(rt; codes[0] == 5 && codes[1] == 19 && codes[2] == 0 && codes[3] == 9);
}

#[test]
fn refuses_a_number_of_four_bytes(rt: HostRuntime) {
    let file = [0x01, 0xac, 0x02, 0x03, 0x85, 0x80, 0x80, 0x00, 0x13, 0x00];
    let mut codes = [9; 4];
    assert_eq!(rt;
        read_codes::<Pulse>(&file, &mut codes),
        Err(fault(Cause::NumberTooLong, 4, Field::Sample))
    );
    assert!(rt; codes[0] == 9 && codes[3] == 9);
}

#[test]
fn refuses_the_empty_file(rt: HostRuntime) {
    let mut codes = [9; 4];
    assert_eq!(rt;
        read_codes::<Pulse>(&[], &mut codes),
        Err(fault(Cause::EndsInsideNumber, 0, Field::Kind))
    );
}

#[test]
fn reads_a_stroke(rt: HostRuntime) {
    let file = [0x02, 0x01, 0x01, 0x09, 0x05, 0x01];
    let mut codes = [0; 1];
    assert_eq!(rt;
        read_codes::<Stroke>(&file, &mut codes),
        Ok(Header {
            machine: 1,
            count: 1,
        })
    );
    assert!(rt; codes[0] == 119);
}

#[test]
fn refuses_a_recovery_of_six(rt: HostRuntime) {
    let file = [0x02, 0x01, 0x01, 0x09, 0x06, 0x01];
    let mut codes = [0; 1];
    assert_eq!(rt;
        read_codes::<Stroke>(&file, &mut codes),
        Err(fault(Cause::OutOfRange, 4, Field::Sample))
    );
}

#[test]
fn refuses_a_short_slice_and_writes_nothing(rt: HostRuntime) {
    let mut codes = [9; 2];
    assert_eq!(rt;
        read_codes::<Pulse>(&padded_pulses(), &mut codes),
        Err(Refusal::TooShort)
    );
    assert!(rt; codes[0] == 9 && codes[1] == 9);
}
