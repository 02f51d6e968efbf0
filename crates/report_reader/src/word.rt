//! Words of a line.

ghost use Rattle.std.specs.Prelude.{◌≡◌};
ghost use Rattle.report_reader.specs.Reading.{name_of};

use crate::cut::two_words;
use fam_base::PeId;
pub use fam_script::word::{hex_bytes, mode, number, signed, slot, small};

/// The name of a call: its program and its number.
pub fn call_name(word: &[u8]) -> Option<(PeId, u64)>
    ensures { result ≡ name_of word.now }
{
    let (pe, call) = two_words(word, b'.')?;
    let pe = small(pe)?;
    let call = number(call)?;
    Some((PeId(pe), call))
}
