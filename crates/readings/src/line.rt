//! Lines of the table: the kind's number, a blank, and the file in hex.
ghost use Rattle.std.specs.Prelude.{◌≡◌, IfOk, vec_items};
ghost use Rattle.std.specs.Option.{option_map};
ghost use Rattle.readings.specs.Lines.{kind_of, file_of, asked, line_asks};

use crate::hex::decode;
use std::alloc::{AllocError, Global};
use trace::kind::KindName;

/// What a line asks for.
#[derive(Drop)]
pub struct Asked {
    pub kind: KindName,
    pub file: Vec<u8>,
}

/// The file that a word spells. The empty file has a sign of its own, so that its line has a word too.
fn file(heap: Global, word: &[u8]) -> Result<Option<Vec<u8>>, AllocError>
    ensures { IfOk result (λ found. option_map vec_items found ≡ file_of word.now) }
{
    match word {
        [] => Ok(None),
        [b'-'] => Ok(Some(Vec::new(heap))),
        _ => decode(heap, word),
    }
}

/// The kind that a digit names, by its number.
fn kind_of(digit: u8) -> Option<KindName>
    ensures { result ≡ kind_of digit }
{
    let number = digit.checked_sub(b'0')?;
    KindName::try_from(number).ok()
}

/// What a line asks for, or none where it is malformed.
pub fn parse(heap: Global, line: &[u8]) -> Result<Option<Asked>, AllocError>
    ensures { IfOk result (λ found. option_map asked found ≡ line_asks line.now) }
{
    let [digit, b' ', word @ ..] = line else {
        return Ok(None);
    };
    let Some(kind) = kind_of(*digit) else {
        return Ok(None);
    };
    Ok(file(heap, word)?.map(|file| Asked { kind, file }))
}
