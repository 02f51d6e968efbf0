//! The memory machine.

ghost use Rattle.std.specs.Prelude.{◌≡◌, ◌↔◌, ◌<◌, ◌≤◌, All, length, map, is_some, IfOk, IsTrue};
ghost use Rattle.std.specs.List.{enumerate_from};
ghost use Rattle.std.specs.Option.{option_copied, option_map};
ghost use Rattle.fam_model.specs.History.{change_served};
ghost use Rattle.fam_model.specs.Programs.{program_of};
ghost use Rattle.fam_model.specs.Limits.{nobody};
ghost use Rattle.fam_model.specs.Opened as opening;
ghost use Rattle.fam_model.specs.Rows.{IsLawful, item_of};
ghost use Rattle.fam_model.specs.Services.{is_service};
ghost use Rattle.fam_machine.specs.Effects.{IsLawfulHere, Takes};
ghost use Rattle.fam_machine.specs.Sound.{HasModes, IsSound};
ghost use Rattle.fam_machine.specs.Views as views;
ghost use Rattle.fam_machine.specs.Views.{state_of, due_at, turn_at, effect_at, rule_at};

use crate::ends::member;
use crate::error::StepError;
use crate::memory::{bytes_of, zero_memory};
use crate::meta::{change_of, meta, mode_bits};
use crate::parts::Parts;
use crate::pieces::{due_answer, piece};
use crate::plain::plain;
use fam_base::{Bytes, ItemId, NoMemory, Sequence, Who};
use fam_directory::IndexedRows;
use fam_layout::Layout;
use fam_model::{Change, Event, PieceAnswer, Rows, Service, What};
use fam_program::Program;
use std::alloc::Global;
use std::marker::Model;

/// The memory machine: what programs have done so far, and the bytes of all items. It steps as the
/// definitions do.
#[derive(Drop)]
pub struct Machine {
    alloc: Global,
    parts: Parts,
}

impl Model for Machine {
    ghost use Rattle.fam_model.specs.declared.state.State.{State};
    ghost use Rattle.fam_machine.specs.Sound.{IsSound};
    ghost use Rattle.fam_machine.specs.Views.{state_of};

    ghost Value = { State };

    ghost view = { λ m. state_of m.parts };

    ghost invariant = { λ m. IsSound (state_of m.parts) };
}

impl Machine {
    /// The machine as a run begins: these rows, zero bytes, and a program for each user, of which the first
    /// `local` are members of the barrier.
    pub fn opened(
        alloc: Global,
        rows: Rows,
        service: Service,
        whos: &[Who],
        local: u32,
    ) -> Result<Machine, NoMemory>
        requires lawful { IsLawful rows }
        requires service { IsTrue (is_service service.servers service.stripes service.unit) }
        requires few { length whos.now ≤ 64 }
        requires users { All (λ w. w.uid < nobody) whos.now }
        requires groups { All (λ w. w.gid < nobody) whos.now }
        requires local { local ≤ length whos.now }
        ensures { IfOk result (λ machine. machine ≡ opening.opened rows service whos.now local) }
    {
        let memory = zero_memory(alloc, &rows)?;
        let rows = IndexedRows::of_rows(alloc, &rows)?;
        let programs = new_programs(alloc, whos, local)?;
        Ok(Machine {
            alloc,
            parts: Parts {
                layout: Layout::new(service),
                rows,
                memory,
                round: 0,
                programs,
            },
        })
    }

    /// Makes the step of an event. Where it may not come the least rule that it breaks is told. After an error
    /// the machine is as it was.
    pub fn step(&mut self, event: &Event) -> Result<(), StepError>
        ensures { views.IsStep self.old event.now self.new result }
    {
        prove!(mode_of(&event.what) <= 511);
        let pe = event.pe.0 as usize;
        if !is_in_turn(&self.parts, pe, event) {
            return Err(StepError::Illegal(1));
        }
        take(self.alloc, &mut self.parts, pe, event.call, &event.what)
    }

    /// The change of the directory that an event would serve now, if it would serve one. It is lawful.
    pub fn change_of(&self, event: &Event) -> Result<Option<Change>, NoMemory>
        ensures change { IfOk result (λ found. found ≡ change_served self.now event.now) }
        ensures lawful { IfOk result (IsLawfulHere self.now.rows) }
    {
        prove!(mode_of(&event.what) <= 511);
        let pe = event.pe.0 as usize;
        match &event.what {
            What::Meta { call, reply } => change_of(self.alloc, &self.parts, pe, call, reply),
            _ => Ok(None),
        }
    }

    /// What each program has. Contracts see its state.
    pub fn program(&self, pe: u32) -> Option<&Program>
        ensures { option_map (λ p. p.state) (option_copied result) ≡ program_of self.now pe }
    {
        self.parts.programs.get(pe as usize)
    }

    /// What a piece would be answered now, if memory and the history of its stripe have room. None exactly where
    /// there is no such piece, or it may not come now. The machine stays as it is.
    pub fn due_answer(
        &self,
        pe: u32,
        call: u64,
        piece: u32,
    ) -> Result<Option<PieceAnswer>, NoMemory>
        ensures { IfOk result (λ due. due ≡ due_at self.now pe call piece) }
    {
        due_answer(self.alloc, &self.parts, pe as usize, call, piece)
    }

    /// How many programs there are.
    pub fn programs(&self) -> usize
        ensures { result ≡ length self.now.programs }
    {
        self.parts.programs.len()
    }

    /// The round of the barrier.
    pub fn round(&self) -> u64
        ensures { result ≡ self.now.round }
    {
        self.parts.round
    }

    /// Where bytes lie.
    pub fn layout(&self) -> &Layout
        ensures value { result.now ≡ self.now.service }
        ensures sound { IsSound self.now }
    {
        &self.parts.layout
    }

    /// The directory.
    pub fn rows(&self) -> &IndexedRows
        ensures { result.now ≡ self.now.rows }
    {
        &self.parts.rows
    }

    /// The bytes of an item. None exactly where it is not there.
    pub fn item(&self, item: ItemId) -> Option<&Bytes>
        ensures bytes { option_copied result ≡ views.bytes_of self.now item.0 }
        ensures there { is_some result ≡ is_some (item_of self.now.rows item.0) }
    {
        bytes_of(&self.parts.memory, item)
    }
}

/// A program for each user, of which the first `local` are local.
fn new_programs(alloc: Global, whos: &[Who], local: u32) -> Result<Sequence<Program>, NoMemory>
    ensures { IfOk result (λ programs. views.states_of programs ≡ views.new_programs whos.now local) }
{
    let mut programs = Sequence::new(alloc);
    for (pe, who) in whos.iter().enumerate() {
        programs.push(Program::new(alloc, *who, pe < local as usize)?)?;
    }
    Ok(programs)
}

/// The mode that an event gives, at most 511, and 0 where it gives none.
fn mode_of(what: &What) -> u16
    ensures modes { HasModes what.now }
    ensures bound { result ≤ 511 }
{
    match what {
        What::Meta { call, .. } => mode_bits(call),
        _ => 0,
    }
}

/// Whether there is the program of an event, and this is its turn.
fn is_in_turn(parts: &Parts, pe: usize, event: &Event) -> bool
    ensures { result ≡ turn_at (state_of parts.now) pe event.now.call event.now.what }
{
    match parts.programs.get(pe) {
        Some(program) => program.is_in_turn(event.call, &event.what),
        None => false,
    }
}

/// The step of an event at its turn.
fn take(
    alloc: Global,
    parts: &mut Parts,
    pe: usize,
    call: u64,
    what: &What,
) -> Result<(), StepError>
    requires sound { IsSound (state_of parts.old) }
    requires turn { IsTrue (turn_at (state_of parts.old) pe call what.now) }
    ensures { Takes (effect_at (state_of parts.old) pe call what.now) (rule_at (state_of parts.old) pe call what.now) parts.old parts.new result }
{
    match what {
        What::Meta { call: asked, reply } => meta(alloc, parts, pe, call, asked, reply),
        What::Piece { piece: j, answer } => piece(alloc, parts, pe, call, *j, answer),
        What::Arrive | What::Leave | What::Crash => member(parts, pe, call, what),
        _ => plain(alloc, parts, pe, call, what),
    }
}
