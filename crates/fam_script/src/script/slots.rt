//! Calls on the directory that name a slot, and maybe a number or a mode.

ghost use Rattle.std.specs.Prelude.{◌≡◌};
ghost use Rattle.fam_script.specs.Reading as lines;

use crate::script::cut::{one_word, two_words};
use crate::script::word::{mode, number, slot};
use fam_model::{Call, Line, MetaCall};

/// A call that names a slot, and maybe a number or a mode.
pub fn slot_line(word: &[u8], arguments: &[u8]) -> Option<Line>
    ensures { result ≡ lines.slot_line word.now (lines.parts 32 arguments.now) }
{
    if word == b"destroy".as_slice() {
        destroy(arguments)
    } else if word == b"stat-region".as_slice() {
        stat_region(arguments)
    } else if word == b"dealloc".as_slice() {
        dealloc(arguments)
    } else if word == b"stat".as_slice() {
        stat(arguments)
    } else if word == b"resize".as_slice() {
        resize(arguments)
    } else if word == b"chmod-region".as_slice() {
        chmod_region(arguments)
    } else if word == b"chmod".as_slice() {
        chmod(arguments)
    } else {
        None
    }
}

pub fn meta(call: MetaCall) -> Option<Line>
    ensures { result ≡ lines.meta_line call }
{
    Some(Line::One(Call::Meta(call)))
}

fn destroy(arguments: &[u8]) -> Option<Line>
    ensures { result ≡ lines.destroy_line (lines.parts 32 arguments.now) }
{
    let word = one_word(arguments)?;
    let named = slot(word)?;
    meta(MetaCall::DestroyRegion { slot: named })
}

fn stat_region(arguments: &[u8]) -> Option<Line>
    ensures { result ≡ lines.stat_region_line (lines.parts 32 arguments.now) }
{
    let word = one_word(arguments)?;
    let named = slot(word)?;
    meta(MetaCall::StatRegion { slot: named })
}

fn dealloc(arguments: &[u8]) -> Option<Line>
    ensures { result ≡ lines.dealloc_line (lines.parts 32 arguments.now) }
{
    let word = one_word(arguments)?;
    let named = slot(word)?;
    meta(MetaCall::Deallocate { slot: named })
}

fn stat(arguments: &[u8]) -> Option<Line>
    ensures { result ≡ lines.stat_line (lines.parts 32 arguments.now) }
{
    let word = one_word(arguments)?;
    let named = slot(word)?;
    meta(MetaCall::Stat { slot: named })
}

fn resize(arguments: &[u8]) -> Option<Line>
    ensures { result ≡ lines.resize_line (lines.parts 32 arguments.now) }
{
    let (target, size) = two_words(arguments)?;
    let target = slot(target)?;
    let size = number(size)?;
    meta(MetaCall::ResizeRegion { slot: target, size })
}

fn chmod_region(arguments: &[u8]) -> Option<Line>
    ensures { result ≡ lines.chmod_region_line (lines.parts 32 arguments.now) }
{
    let (target, bits) = two_words(arguments)?;
    let target = slot(target)?;
    let bits = mode(bits)?;
    meta(MetaCall::SetRegionMode {
        slot: target,
        mode: bits,
    })
}

fn chmod(arguments: &[u8]) -> Option<Line>
    ensures { result ≡ lines.chmod_line (lines.parts 32 arguments.now) }
{
    let (target, bits) = two_words(arguments)?;
    let target = slot(target)?;
    let bits = mode(bits)?;
    meta(MetaCall::SetItemMode {
        slot: target,
        mode: bits,
    })
}
