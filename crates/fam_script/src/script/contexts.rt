//! Calls on a context that move nothing.

ghost use Rattle.std.specs.Prelude.{◌≡◌};
ghost use Rattle.fam_script.specs.Reading as lines;

use crate::script::cut::{one_word, two_words};
use crate::script::word::{number, slot};
use fam_model::{Call, Line};

/// A call on a context that moves nothing.
pub fn context_line(word: &[u8], arguments: &[u8]) -> Option<Line>
    ensures { result ≡ lines.context_line word.now (lines.parts 32 arguments.now) }
{
    if word == b"open".as_slice() {
        open(arguments)
    } else if word == b"close".as_slice() {
        close(arguments)
    } else if word == b"fence".as_slice() {
        fence(arguments)
    } else if word == b"quiet".as_slice() {
        quiet(arguments)
    } else if word == b"copy-wait".as_slice() {
        copy_wait(arguments)
    } else {
        None
    }
}

fn open(arguments: &[u8]) -> Option<Line>
    ensures { result ≡ lines.open_line (lines.parts 32 arguments.now) }
{
    let context = one_word(arguments)?;
    let context = slot(context)?;
    Some(Line::One(Call::OpenContext { context }))
}

fn close(arguments: &[u8]) -> Option<Line>
    ensures { result ≡ lines.close_line (lines.parts 32 arguments.now) }
{
    let context = one_word(arguments)?;
    let context = slot(context)?;
    Some(Line::One(Call::CloseContext { context }))
}

fn fence(arguments: &[u8]) -> Option<Line>
    ensures { result ≡ lines.fence_line (lines.parts 32 arguments.now) }
{
    let context = one_word(arguments)?;
    let context = slot(context)?;
    Some(Line::One(Call::Fence { context }))
}

fn quiet(arguments: &[u8]) -> Option<Line>
    ensures { result ≡ lines.quiet_line (lines.parts 32 arguments.now) }
{
    let context = one_word(arguments)?;
    let context = slot(context)?;
    Some(Line::One(Call::Quiet { context }))
}

fn copy_wait(arguments: &[u8]) -> Option<Line>
    ensures { result ≡ lines.copy_wait_line (lines.parts 32 arguments.now) }
{
    let (context, call) = two_words(arguments)?;
    let context = slot(context)?;
    let call = number(call)?;
    Some(Line::One(Call::CopyWait { context, call }))
}
