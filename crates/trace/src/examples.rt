//! A padded trace file, and the worked examples of the format.
ghost use Rattle.std.specs.Prelude.{◌≡◌, List, [], ◌∷◌, Ok};
ghost use Rattle.trace.specs.Examples.{Examples, read_as_pulses, three_pulses};

/// Pulses of the classes 5, 19 and 0 from machine 300, the 5 padded with two empty high groups.
pub fn padded_pulses() -> [u8; 9]
    ensures bytes { result ≡ 0x01 ∷ 0xAC ∷ 0x02 ∷ 0x03 ∷ 0x85 ∷ 0x80 ∷ 0x00 ∷ 0x13 ∷ 0x00 ∷ [] }
    ensures read { read_as_pulses result ≡ Ok three_pulses }
    ensures examples { Examples }
{
    [0x01, 0xac, 0x02, 0x03, 0x85, 0x80, 0x00, 0x13, 0x00]
}
