//! Pieces of operations.

ghost use Rattle.std.specs.Prelude.{◌≡◌, ◌+◌, ◌<◌, ◌≤◌, ◌&&◌, false, length, map, IfOk, IsTrue, if◌then◌else◌};
ghost use Rattle.std.specs.List.Sorted.{IsStrictlyIncreasing};
ghost use Rattle.fam_model.specs.Operations.{is_copy};
ghost use Rattle.fam_model.specs.PieceStep as steps;
ghost use Rattle.fam_model.specs.declared.event.What.TheVariants as what;
ghost use Rattle.fam_machine.specs.Collected as words;
ghost use Rattle.fam_machine.specs.Effects.{Takes};
ghost use Rattle.fam_machine.specs.Sound.{IsSound, is_sound_kind};
ghost use Rattle.fam_machine.specs.Views.{state_of, due_at, effect_at, rule_at};

use crate::answers::{self, is_refused, may_answer};
use crate::error::StepError;
use crate::memory::{self, Memory, bytes_found};
use crate::parts::Parts;
use fam_base::{NoMemory, Sequence, copy_of};
use fam_model::{PieceAnswer, PieceKind, PlanKind, PlanPiece};
use std::alloc::Global;

/// Whether the piece is the read of a copy.
fn is_copy_read(kind: PlanKind, piece: &PlanPiece) -> bool
    ensures { result ≡ (is_copy kind && steps.is_read piece.now.kind) }
{
    matches!(kind, PlanKind::Copy) && matches!(piece.kind, PieceKind::Read)
}

/// What the context of a piece is told: a copy's read that is served with the bytes found.
fn collected_answer(
    alloc: Global,
    memory: &Memory,
    kind: PlanKind,
    piece: &PlanPiece,
    given: &PieceAnswer,
) -> Result<PieceAnswer, NoMemory>
    requires rising { IsStrictlyIncreasing (map steps.entry_number memory.now) }
    requires inside { steps.is_refused given.now ≡ false → piece.now.offset + piece.now.n ≤ length (steps.item_bytes memory.now piece.now.item.0) }
    ensures { IfOk result (λ told. told ≡ words.collected_answer kind piece.now given.now (steps.bytes_found memory.now piece.now)) }
{
    match given {
        PieceAnswer::Ok if is_copy_read(kind, piece) => {
            let bytes = Sequence::of(alloc, bytes_found(memory, piece))?;
            Ok(PieceAnswer::Data(bytes))
        }
        _ => copy_of(given),
    }
}

/// The effect of a piece on memory: none where it is refused.
fn serve(alloc: Global, memory: &mut Memory, piece: &PlanPiece, given: &PieceAnswer)
    requires rising { IsStrictlyIncreasing (map steps.entry_number memory.old) }
    requires inside { steps.is_refused given.now ≡ false → piece.now.offset + piece.now.n ≤ length (steps.item_bytes memory.old piece.now.item.0) }
    requires kind { IsTrue (is_sound_kind piece.now.kind piece.now.n) }
    requires few { length piece.now.bytes ≤ piece.now.n }
    ensures { memory.new ≡ (if steps.is_refused given.now then memory.old else steps.memory_by_kind piece.now.kind memory.old piece.now) }
{
    if !is_refused(given) {
        memory::serve(alloc, memory, piece);
    }
}

/// The answer that a piece is due. None exactly where it is not there or may not come now.
pub fn due_answer(
    alloc: Global,
    parts: &Parts,
    pe: usize,
    call: u64,
    j: u32,
) -> Result<Option<PieceAnswer>, NoMemory>
    requires sound { IsSound (state_of parts.now) }
    ensures { IfOk result (λ due. due ≡ due_at (state_of parts.now) pe call j) }
{
    let Some(program) = parts.programs.get(pe) else {
        return Ok(None);
    };
    if !program.may_come(call, j) {
        return Ok(None);
    }
    let kind = program.kind(call);
    let left = program.piece(call, j);
    let answer = answers::due_answer(alloc, &parts.rows, &parts.memory, program.who(), kind, left)?;
    Ok(Some(answer))
}

/// A piece.
pub fn piece(
    alloc: Global,
    parts: &mut Parts,
    pe: usize,
    call: u64,
    piece: u32,
    given: &PieceAnswer,
) -> Result<(), StepError>
    requires there { pe < length parts.old.programs }
    requires sound { IsSound (state_of parts.old) }
    ensures { Takes (effect_at (state_of parts.old) pe call (what.Piece piece given.now)) (rule_at (state_of parts.old) pe call (what.Piece piece given.now)) parts.old parts.new result }
{
    let program = parts.programs.at(pe);
    if !program.may_come(call, piece) {
        return Err(StepError::Illegal(4));
    }
    let kind = program.kind(call);
    let left = program.piece(call, piece);
    if !may_answer(&parts.rows, &parts.memory, program.who(), kind, left, given) {
        return Err(StepError::Illegal(5));
    }
    let answer = collected_answer(alloc, &parts.memory, kind, left, given)?;
    serve(alloc, &mut parts.memory, left, given);
    parts.programs.at_mut(pe).collected(call, piece, answer);
    Ok(())
}
