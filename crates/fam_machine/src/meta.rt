//! Calls on the directory.

ghost use Rattle.std.specs.Prelude.{◌≡◌, ◌<◌, ◌≤◌, length, IfOk, IsTrue, None};
ghost use Rattle.fam_model.specs.Limits.{nobody};
ghost use Rattle.fam_model.specs.declared.event.What.TheVariants as what;
ghost use Rattle.fam_rows.specs.Laws.{asked_mode};
ghost use Rattle.fam_machine.specs.Views.{state_of, turn_at, effect_at};
ghost use Rattle.fam_model.specs.Directory.{refusal};
ghost use Rattle.fam_model.specs.History.{change_in};
ghost use Rattle.fam_model.specs.MetaStep as steps;
ghost use Rattle.fam_model.specs.Rows.{IsLawful};
ghost use Rattle.fam_machine.specs.Sound.{call_mode, IsMemoryOf, IsSound};
ghost use Rattle.fam_machine.specs.Effects.{Tells, told_if, Answers, IsLawfulHere, Takes};

use crate::error::StepError;
use crate::memory::{self, Memory};
use crate::parts::Parts;
use fam_base::{NoMemory, Who};
use fam_directory::IndexedRows;
use fam_model::{Change, MetaCall, Reply, Request};
use std::alloc::Global;

/// What a reply tells of its request.
#[derive(Drop)]
pub enum Told {
    /// The directory may not give it.
    Wrong,
    /// It is right, and nothing changes.
    Right,
    /// It is right, and this change serves the request.
    Serves(Change),
}

/// The mode that a call gives, and 0 where it gives none.
pub fn mode_bits(call: &MetaCall) -> u16
    ensures value { result ≡ call_mode call.now }
    ensures bound { result ≤ 511 }
{
    match call {
        MetaCall::CreateRegion { mode, .. }
        | MetaCall::SetRegionMode { mode, .. }
        | MetaCall::Allocate { mode, .. }
        | MetaCall::SetItemMode { mode, .. } => mode.bits(),
        _ => 0,
    }
}

/// Where a reply says that a new item lies.
fn told_base(reply: &Reply) -> u64
    ensures { result ≡ steps.told_base reply.now }
{
    match reply {
        Reply::Item(descriptor) => descriptor.base,
        _ => 0,
    }
}

/// Right or wrong, where nothing changes.
fn unchanged(is_right: bool) -> Told
    ensures { result ≡ told_if is_right }
{
    if is_right { Told::Right } else { Told::Wrong }
}

/// What the reply to a request that is not refused and finds nothing tells.
fn told_change(
    rows: &IndexedRows,
    who: Who,
    request: &Request,
    given: &Reply,
) -> Result<Option<Change>, NoMemory>
    requires lawful { IsLawful rows.now }
    requires served { refusal rows.now who request.now ≡ None }
    ensures { IfOk result (λ told. told ≡ steps.told_change rows.now who request.now given.now) }
{
    let base = told_base(given);
    let Some(chosen) = rows.change_at(who, request, base)? else {
        return Ok(None);
    };
    if rows.may_lie(request, base) && *given == fam_rows::answer(&chosen) {
        Ok(Some(chosen))
    } else {
        Ok(None)
    }
}

/// What a reply tells of its request.
pub fn tell(
    rows: &IndexedRows,
    who: Who,
    request: &Request,
    given: &Reply,
) -> Result<Told, NoMemory>
    requires lawful { IsLawful rows.now }
    ensures { IfOk result (Tells rows.now who request.now given.now) }
{
    if let Some(error) = rows.refusal(who, request) {
        return Ok(unchanged(*given == Reply::Error(error)));
    }
    if let Some(reply) = rows.found(request)? {
        return Ok(unchanged(*given == reply));
    }
    match told_change(rows, who, request, given)? {
        Some(chosen) => Ok(Told::Serves(chosen)),
        None => Ok(Told::Wrong),
    }
}

/// The change that a call with this reply would serve, if it would serve one.
pub fn change_of(
    alloc: Global,
    parts: &Parts,
    pe: usize,
    asked: &MetaCall,
    given: &Reply,
) -> Result<Option<Change>, NoMemory>
    requires sound { IsSound (state_of parts.now) }
    requires mode { call_mode asked.now ≤ 511 }
    ensures change { IfOk result (λ found. found ≡ change_in (state_of parts.now) pe (what.Meta asked.now given.now)) }
    ensures lawful { IfOk result (IsLawfulHere parts.now.rows) }
{
    let Some(program) = parts.programs.get(pe) else {
        return Ok(None);
    };
    let Some(request) = program.request_of(alloc, asked)? else {
        return Ok(None);
    };
    match tell(&parts.rows, program.who(), &request, given)? {
        Told::Serves(chosen) => Ok(Some(chosen)),
        Told::Right | Told::Wrong => Ok(None),
    }
}

/// Makes the change that a reply tells, if it is right.
fn answer(
    alloc: Global,
    rows: &mut IndexedRows,
    memory: &mut Memory,
    who: Who,
    request: &Request,
    given: &Reply,
) -> Result<(), StepError>
    requires lawful { IsLawful rows.old }
    requires filled { IsMemoryOf rows.old.items memory.old }
    requires user { who.uid < nobody }
    requires mode { asked_mode request.now ≤ 511 }
    ensures { Answers rows.old memory.old who request.now given.now rows.new memory.new result }
{
    match tell(rows, who, request, given)? {
        Told::Wrong => Err(StepError::Illegal(2)),
        Told::Right => Ok(()),
        Told::Serves(chosen) => {
            memory::change(alloc, rows, memory, chosen)?;
            Ok(())
        }
    }
}

/// A call on the directory.
pub fn meta(
    alloc: Global,
    parts: &mut Parts,
    pe: usize,
    call: u64,
    asked: &MetaCall,
    given: &Reply,
) -> Result<(), StepError>
    requires there { pe < length parts.old.programs }
    requires sound { IsSound (state_of parts.old) }
    requires turn { IsTrue (turn_at (state_of parts.old) pe call (what.Meta asked.now given.now)) }
    ensures { Takes (effect_at (state_of parts.old) pe call (what.Meta asked.now given.now)) 2 parts.old parts.new result }
{
    prove!(mode_bits(asked) <= 511);
    let program = parts.programs.at(pe);
    let who = program.who();
    let Some(request) = program.request_of(alloc, asked)? else {
        return Err(StepError::Illegal(2));
    };
    answer(
        alloc,
        &mut parts.rows,
        &mut parts.memory,
        who,
        &request,
        given,
    )?;
    parts.programs.at_mut(pe).fill(asked, given);
    Ok(())
}
