//! The service on one thread.

ghost use Rattle.std.specs.Option.{option_copied};
ghost use Rattle.std.specs.Prelude.{◌≡◌, ◌<◌, ◌≤◌, ◌∷◌, ◌++◌, [], All, List, Some, length, is_some, true, IfOk, IsTrue, OnErr, OnOk};
ghost use Rattle.fam_model.specs.Limits.{nobody, service_limits};
ghost use Rattle.fam_model.specs.Opened.{opened};
ghost use Rattle.fam_model.specs.Rows.{IsLawful};
ghost use Rattle.fam_model.specs.Services.{is_service};
ghost use Rattle.fam_model.specs.Step as machine;
ghost use Rattle.fam_model.specs.declared.event.Event.{Event};
ghost use Rattle.fam_keeper.specs.Keeping.{Keeps};
ghost use Rattle.fam_steps.specs.Crash.{IsFinished, IsKeptDue, IsMade, KeepsOn};
ghost use Rattle.fam_steps.specs.Steps as steps;

use crate::coming::come;
use crate::copying::copy_event;
use crate::due::{due_event, next_event};
use crate::step::{CoreFault, Step};
use fam_base::{NoMemory, PeId, Who};
use fam_disk::Disk;
use fam_keeper::{Keeper, Kept};
use fam_machine::{Machine, StepError};
use fam_model::{Call, Event, Rows, Service};
use std::alloc::Global;
use std::marker::Model;

/// The service on one thread: the memory machine, and the events that it has made.
#[derive(Drop)]
pub struct Core {
    alloc: Global,
    machine: Machine,
    history: Vec<Event>,
}

impl Model for Core {
    ghost use Rattle.fam_steps.specs.Steps.{Course};

    ghost Value = { Course };

    ghost view = { λ core. record { history = core.history.items; state = core.machine } };
}

impl Core {
    /// The service before its first event: these rows in the directory, zero bytes, and a program for each user. All
    /// programs are members of the barrier.
    pub fn new(alloc: Global, service: Service, whos: &[Who], rows: Rows) -> Result<Core, NoMemory>
        requires service { IsTrue (is_service service.servers service.stripes service.unit) }
        requires few { length whos.now ≤ 64 }
        requires users { All (λ w. w.uid < nobody) whos.now }
        requires groups { All (λ w. w.gid < nobody) whos.now }
        requires lawful { IsLawful rows }
        ensures { IfOk result (λ core. core ≡ steps.begun_in (opened rows service whos.now (length whos.now))) }
    {
        let machine = Machine::opened(alloc, rows, service, whos, whos.len() as u32)?;
        Ok(Core {
            alloc,
            machine,
            history: Vec::new(alloc),
        })
    }

    /// Makes the event that a step is for, and hands it out. A change is kept before it is served; where the disk fails the
    /// event is its refusal. `NotEnabled` exactly where no event of that shape may come. After a fault the service is as it
    /// was.
    pub fn apply<D: Disk>(
        &mut self,
        keeper: &mut Keeper<D>,
        wanted: &Step,
    ) -> Result<Event, CoreFault>
        requires kept { Keeps keeper.old self.old.state.rows }
        ensures applies { steps.Applies self.old wanted.now self.new result }
        ensures legal { steps.GoesOn self.old self.new }
        ensures kept { Keeps keeper.new self.new.state.rows }
        ensures keeps { KeepsOn self.old keeper.old self.new keeper.new }
    {
        let Some(due) = self.due(wanted)? else {
            return Err(CoreFault::NotEnabled);
        };
        let told = copy_event(&due)?;
        let kept = self.make(keeper, due)?;
        Ok(come(told, kept))
    }

    /// Makes the event that a step is for: it is then the last one of the history. Else as `apply`.
    pub fn advance<D: Disk>(
        &mut self,
        keeper: &mut Keeper<D>,
        wanted: &Step,
    ) -> Result<(), CoreFault>
        requires kept { Keeps keeper.old self.old.state.rows }
        ensures goes { steps.Advances self.old wanted.now self.new result }
        ensures legal { steps.GoesOn self.old self.new }
        ensures kept { Keeps keeper.new self.new.state.rows }
        ensures keeps { KeepsOn self.old keeper.old self.new keeper.new }
    {
        let Some(due) = self.due(wanted)? else {
            return Err(CoreFault::NotEnabled);
        };
        self.make(keeper, due)?;
        Ok(())
    }

    /// Makes the next event of a program whose next call is this one: the answer of what it has started, or else the first
    /// event of the call. It is then the last one of the history. Else as `apply`.
    pub fn go_on<D: Disk>(
        &mut self,
        keeper: &mut Keeper<D>,
        pe: PeId,
        wanted: &Option<Call>,
    ) -> Result<(), CoreFault>
        requires kept { Keeps keeper.old self.old.state.rows }
        ensures takes { steps.TakesTurn self.old pe.0 wanted.now self.new result }
        ensures legal { steps.GoesOn self.old self.new }
        ensures kept { Keeps keeper.new self.new.state.rows }
        ensures keeps { KeepsOn self.old keeper.old self.new keeper.new }
    {
        let Some(due) = next_event(self.alloc, &self.machine, pe, wanted)? else {
            return Err(CoreFault::NotEnabled);
        };
        self.make(keeper, due)?;
        Ok(())
    }

    /// The memory machine as it stands.
    pub fn machine(&self) -> &Machine
        ensures { result.now ≡ self.now.state }
    {
        &self.machine
    }

    /// The events so far.
    pub fn history(&self) -> &[Event]
        ensures { result.now ≡ self.now.history }
    {
        self.history.as_slice()
    }

    /// The last event, if there is one.
    pub fn last(&self) -> Option<&Event>
        ensures { (before : List Event) (event : Event) → self.now.history ≡ before ++ event ∷ [] → option_copied result ≡ Some event }
    {
        self.history.as_slice().last()
    }

    /// The events so far; the rest is dropped.
    pub fn into_history(self) -> Vec<Event>
        ensures { result.items ≡ self.history }
    {
        self.history
    }

    /// The event that a step is for.
    fn due(&self, wanted: &Step) -> Result<Option<Event>, NoMemory>
        ensures { IfOk result (λ event. steps.IsFound self.now.state wanted.now event) }
    {
        due_event(self.alloc, &self.machine, wanted)
    }

    /// Makes what comes where this event is due.
    fn make<D: Disk>(&mut self, keeper: &mut Keeper<D>, due: Event) -> Result<Kept, NoMemory>
        requires due { steps.IsDue self.old.state due }
        requires kept { Keeps keeper.old self.old.state.rows }
        ensures { IsMade self.old due keeper.old self.new keeper.new result }
    {
        match keep_due(&self.machine, keeper, &due) {
            Ok(kept) => self.finish(keeper, come(due, kept), kept),
            Err(NoMemory) => Err(NoMemory),
        }
    }

    /// Adds what came, whose change was kept. Where memory is wanting the keeper is stopped.
    fn finish<D: Disk>(
        &mut self,
        keeper: &mut Keeper<D>,
        event: Event,
        kept: Kept,
    ) -> Result<Kept, NoMemory>
        requires { is_some (machine.step service_limits self.old.state event) ≡ true }
        ensures { IsFinished self.old event kept keeper.old self.new keeper.new result }
    {
        match self.add(event) {
            Ok(()) => Ok(kept),
            Err(NoMemory) => {
                keeper.stop();
                Err(NoMemory)
            }
        }
    }

    /// Adds an event that may come.
    fn add(&mut self, event: Event) -> Result<(), NoMemory>
        requires { is_some (machine.step service_limits self.old.state event) ≡ true }
        ensures made { OnOk result (steps.Makes self.old event self.new) }
        ensures failed { OnErr result (self.new ≡ self.old) }
    {
        let Ok(()) = self.history.reserve(1) else {
            return Err(NoMemory);
        };
        match self.machine.step(&event) {
            Ok(()) => {}
            Err(StepError::Memory) => return Err(NoMemory),
            Err(StepError::Illegal(_)) => unreachable!(),
        }
        self.history.push_reserved(event);
        Ok(())
    }
}

/// Keeps the change of an event that is due, if it would serve one.
fn keep_due<D: Disk>(
    machine: &Machine,
    keeper: &mut Keeper<D>,
    due: &Event,
) -> Result<Kept, NoMemory>
    requires { Keeps keeper.old machine.now.rows }
    ensures { IsKeptDue machine.now due.now keeper.old keeper.new result }
{
    if keeper.is_stopped() {
        return Err(NoMemory);
    }
    match machine.change_of(due)? {
        Some(change) => keeper.keep(machine.rows(), &change),
        None => Ok(Kept::Served),
    }
}
