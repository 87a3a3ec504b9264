//! Bytes in hex, two digits to a byte, with small letters only, where the library's `hex` takes capitals too.
ghost use Rattle.std.specs.Prelude.{◌≡◌, IfOk, vec_items};
ghost use Rattle.std.specs.Option.{option_map};
ghost use Rattle.readings.specs.Hex.{digit_value, byte_value, hex_bytes};

use std::alloc::{AllocError, Global};

/// The value of a digit.
fn digit(letter: u8) -> Option<u8>
    ensures { result ≡ digit_value letter }
{
    match letter {
        b'0'..=b'9' => Some(letter - b'0'),
        b'a'..=b'f' => Some(letter - b'a' + 10),
        _ => None,
    }
}

/// The byte of two digits.
fn byte(high: u8, low: u8) -> Option<u8>
    ensures { result ≡ byte_value high low }
{
    let high = digit(high)?;
    let low = digit(low)?;
    Some(high * 16 + low)
}

/// The bytes that a text spells, or none where it is not all hex.
pub fn decode(heap: Global, text: &[u8]) -> Result<Option<Vec<u8>>, AllocError>
    ensures { IfOk result (λ found. option_map vec_items found ≡ hex_bytes text.now) }
{
    let mut bytes = Vec::new(heap);
    let mut rest = text;
    while let [high, low, behind @ ..] = rest {
        let Some(next) = byte(*high, *low) else {
            return Ok(None);
        };
        bytes.push(next)?;
        rest = behind;
    }
    Ok(if rest.is_empty() { Some(bytes) } else { None })
}
