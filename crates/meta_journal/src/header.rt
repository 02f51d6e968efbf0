//! The header of a journal.

ghost use Rattle.std.specs.Prelude.{◌≡◌, length, Some, None, if◌then◌else◌};
ghost use Rattle.meta_journal.specs.Layout.{area_in_use, has_header, is_first_version};

use crate::area::Area;

/// What the header of a journal says.
#[derive(Clone, Copy, Debug, PartialEq, Eq)]
pub(crate) struct Header {
    pub(crate) is_first_version: bool,
    pub(crate) area: Area,
}

/// None where the bytes are not the header of a journal.
pub(crate) fn header_of(bytes: &[u8]) -> Option<Header>
    requires { length bytes.now ≡ 16 }
    ensures { result ≡ (if has_header bytes.now
        then Some (record { is_first_version = is_first_version bytes.now; area = area_in_use bytes.now }) else None) }
{
    if is_header(bytes) {
        Some(Header {
            is_first_version: bytes[4] == 1,
            area: if bytes[8] == 1 {
                Area::Second
            } else {
                Area::First
            },
        })
    } else {
        None
    }
}

/// Whether the bytes are the header of a journal of either version, with either area in use.
fn is_header(bytes: &[u8]) -> bool
    requires { length bytes.now ≡ 16 }
    ensures { result ≡ has_header bytes.now }
{
    &bytes[..4] == b"FAMJ".as_slice()
        && &bytes[5..8] == [0; 3].as_slice()
        && &bytes[9..16] == [0; 7].as_slice()
}
