//! Lines that are no calls.

ghost use Rattle.std.specs.Prelude.{◌≡◌};
ghost use Rattle.fam_script.specs.Reading as lines;

use crate::script::cut::{one_word, six_words, three_words, two_words};
use crate::script::table::width;
use crate::script::word::{byte, number, signed, slot, small};
use fam_base::Who;
use fam_model::{Line, Service};

/// A line that is no call.
pub fn frame_line(word: &[u8], arguments: &[u8]) -> Option<Line>
    ensures { result ≡ lines.frame_line word.now (lines.parts 32 arguments.now) }
{
    if word == b"pe".as_slice() {
        pe(arguments)
    } else if word == b"repeat".as_slice() {
        repeat(arguments)
    } else if word == b"spin".as_slice() {
        spin(arguments)
    } else if word == b"service".as_slice() {
        service(arguments)
    } else {
        None
    }
}

fn service(arguments: &[u8]) -> Option<Line>
    ensures { result ≡ lines.service_line (lines.parts 32 arguments.now) }
{
    let (servers, stripes, unit) = three_words(arguments)?;
    let servers = byte(servers)?;
    let stripes = byte(stripes)?;
    let unit = small(unit)?;
    Some(Line::Service(Service {
        servers,
        stripes,
        unit,
    }))
}

fn pe(arguments: &[u8]) -> Option<Line>
    ensures { result ≡ lines.pe_line (lines.parts 32 arguments.now) }
{
    let (uid, gid) = two_words(arguments)?;
    let uid = small(uid)?;
    let gid = small(gid)?;
    Some(Line::Pe(Who { uid, gid }))
}

fn repeat(arguments: &[u8]) -> Option<Line>
    ensures { result ≡ lines.repeat_line (lines.parts 32 arguments.now) }
{
    let times = one_word(arguments)?;
    let times = small(times)?;
    Some(Line::Repeat { times })
}

fn spin(arguments: &[u8]) -> Option<Line>
    ensures { result ≡ lines.spin_line (lines.parts 32 arguments.now) }
{
    let (context, item, offset, kind, value, tries) = six_words(arguments)?;
    let context = slot(context)?;
    let item = slot(item)?;
    let offset = number(offset)?;
    let kind = width(kind)?;
    let value = signed(value)?;
    let tries = small(tries)?;
    Some(Line::Spin {
        context,
        item,
        offset,
        width: kind,
        value,
        tries,
    })
}
