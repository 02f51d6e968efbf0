//! Events.

ghost use Rattle.std.specs.Prelude.{◌≡◌, true, IfOk, IfSome};
ghost use Rattle.fam_script.specs.Reading.{parts};
ghost use Rattle.report_reader.specs.Reading as words;
ghost use Rattle.report_reader.specs.Reading.{calls_told};

use crate::cut::cut;
use crate::fits::event_fits;
use crate::printed::is_event;
use crate::what::what;
use crate::word::call_name;
use fam_base::{NoMemory, PeId};
use fam_model::{Event, What};
use std::alloc::Global;

fn event_with(name: (PeId, u64), happened: Option<What>) -> Option<Event>
    requires { IfSome happened (λ what. calls_told what ≡ true) }
    ensures event { result ≡ words.event_from name happened }
    ensures told { IfSome result (λ event. calls_told event.what ≡ true) }
{
    let what = happened?;
    let (pe, call) = name;
    Some(Event { pe, call, what })
}

/// What the text of an event may say.
fn loose_event(alloc: Global, text: &[u8]) -> Result<Option<Event>, NoMemory>
    ensures event { IfOk result (λ event. event ≡ words.loose_event (parts 32 text.now)) }
    ensures told { IfOk result (λ event. IfSome event (λ e. calls_told e.what ≡ true)) }
{
    let Some((name, happened)) = cut(text, b' ') else {
        return Ok(None);
    };
    let Some(name) = call_name(name) else {
        return Ok(None);
    };
    let happened = what(alloc, happened)?;
    Ok(event_with(name, happened))
}

/// The event whose text this is.
pub fn event(alloc: Global, text: &[u8]) -> Result<Option<Event>, NoMemory>
    ensures { IfOk result (λ event. event ≡ words.event_of text.now) }
{
    let Some(event) = loose_event(alloc, text)? else {
        return Ok(None);
    };
    if !event_fits(&event) {
        return Ok(None);
    }
    is_event(alloc, event, text)
}
