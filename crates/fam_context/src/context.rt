//! A context.

ghost use Rattle.std.specs.List.{list_all, position_or_len};
ghost use Rattle.std.specs.Prelude.{◌≡◌, ◌&&◌, nat_lt, ◌<◌, ◌+◌, ◌^◌, false, [], map, length, option_copied, option_map, IsTrue, IsFalse, IsSome, IsOk, IfOk, OnOk, OnErr, MatchOption, All, not};

use crate::changes::{
    add, collect, fresh, give_result, lose, planned, report_all, tell, tell_each,
};
use crate::next::next_in;
use crate::side::{Side, advance, flag_at, recount, set_flag};
use crate::tracked::Pending;
use crate::{results, words};
use fam_base::{NoMemory, Sequence};
use fam_layout::Plan;
use fam_model::{Operation, PieceAnswer, PlanKind, PlanPiece, Reply};
use std::alloc::Global;
use std::marker::Model;

/// The numbers of pieces have 32 bits.
const MOST_PIECES: usize = 4_294_967_295;

/// No piece counts.
const NONE: Pending = Pending {
    held: 0,
    out: 0,
    done: 0,
};

/// The operations of a context, in order of their calls' numbers. Contracts see the context of the
/// definitions, and which pieces are out.
#[derive(Drop)]
pub struct Context {
    alloc: Global,
    context: fam_model::Context,
    sides: Vec<Side>,
    pending: Pending,
    pieces: u64,
    first: usize,
    told: usize,
}

impl Model for Context {
    ghost use Rattle.fam_context.specs.declared.tracked.Tracked.{Tracked};

    ghost Value = { Tracked };

    ghost use Rattle.fam_context.specs.Order.{tracked};
    ghost use Rattle.fam_context.specs.Sides.{IsSettled, flags_of};

    ghost view = { λ c. tracked c.context (flags_of c.sides.items) };

    ghost invariant = { λ c. IsSettled c.context c.sides.items c.pending c.pieces c.first c.told };
}

impl Context {
    ghost use Rattle.fam_model.specs.ContextStep.{new_context};
    ghost use Rattle.fam_model.specs.Lists.{place_of};
    ghost use Rattle.fam_model.specs.Operations as operations;
    ghost use Rattle.fam_model.specs.Opened.{closed_context};
    ghost use Rattle.fam_model.specs.Same.{same_reply};
    ghost use Rattle.fam_model.specs.Programs.{call_number, has_operation, operation_of};
    ghost use Rattle.fam_context.specs.Counting.{pending_of};
    ghost use Rattle.fam_context.specs.Effects as effects;
    ghost use Rattle.fam_context.specs.Next.{NoneOn, IsNextOn};
    ghost use Rattle.fam_context.specs.Order.{IsOrdered, tracked, is_planned_in_turn};

    /// An open context at epoch 0, without operations.
    pub fn new(alloc: Global) -> Context
        ensures { result ≡ tracked new_context [] }
    {
        Context {
            alloc,
            context: fam_model::Context {
                is_open: true,
                epoch: 0,
                operations: Sequence::new(alloc),
            },
            sides: Vec::new(alloc),
            pending: NONE,
            pieces: 0,
            first: 0,
            told: 0,
        }
    }

    /// A context that was not opened yet.
    pub fn closed(alloc: Global) -> Context
        ensures { result ≡ tracked closed_context [] }
    {
        Context {
            alloc,
            context: fam_model::Context {
                is_open: false,
                epoch: 0,
                operations: Sequence::new(alloc),
            },
            sides: Vec::new(alloc),
            pending: NONE,
            pieces: 0,
            first: 0,
            told: 0,
        }
    }

    /// Opens a context that is not open: it is then as a new one.
    pub fn open(&mut self)
        requires { IsFalse self.old.context.is_open }
        ensures { self.new ≡ tracked new_context [] }
    {
        self.context.is_open = true;
        self.context.epoch = 0;
        self.context.operations = Sequence::new(self.alloc);
        self.sides = Vec::new(self.alloc);
        self.pending = NONE;
        self.pieces = 0;
        self.first = 0;
        self.told = 0;
    }

    /// The context is not open any more. Its operations stay.
    pub fn close(&mut self)
        ensures { self.new ≡ effects.closed self.old }
    {
        self.context.is_open = false;
    }

    pub fn is_open(&self) -> bool
        ensures value { result ≡ self.now.context.is_open }
        ensures ordered { IsOrdered self.now }
    {
        self.context.is_open
    }

    pub fn epoch(&self) -> u64
        ensures value { result ≡ self.now.context.epoch }
        ensures ordered { IsOrdered self.now }
    {
        self.context.epoch
    }

    /// A fence: what is issued from now on comes after all that was issued before.
    pub fn fence(&mut self)
        requires { self.old.context.epoch < 2 ^ 63 }
        ensures { self.new ≡ effects.fenced self.old }
    {
        self.context.epoch += 1;
    }

    /// Whether some piece is left.
    pub fn is_pending(&self) -> bool
        ensures { result ≡ operations.is_pending self.now.context }
    {
        words::is_pending(&self.context, self.first)
    }

    /// Its operations, in order of their calls' numbers.
    pub fn operations(&self) -> &[Operation]
        ensures value { result.now ≡ self.now.context.operations }
        ensures ordered { IsOrdered self.now }
    {
        self.context.operations.as_slice()
    }

    /// The place of the first operation with a piece left, and the number of operations where there is none.
    pub fn front(&self) -> usize
        ensures { result ≡ position_or_len operations.has_left self.now.context.operations }
    {
        self.first
    }

    /// The place of the operation of a call.
    pub fn place_of(&self, call: u64) -> Option<usize>
        ensures { result ≡ place_of call_number call self.now.context.operations }
    {
        words::place_of(&self.context, call)
    }

    /// The result of an operation. It is told to nobody by this.
    pub fn result_of(&self, call: u64) -> Result<Reply, NoMemory>
        requires { IsTrue (has_operation self.now.context call) }
        ensures { IfOk result (λ reply. option_map operations.result (operation_of self.now.context call) ≡ Some reply) }
    {
        match words::find(&self.context, call) {
            Some(operation) => results::result(self.alloc, operation),
            None => unreachable!(),
        }
    }

    /// The report of all nonblocking operations that were not reported yet. They are told to nobody by this.
    pub fn report_of(&self) -> Result<Reply, NoMemory>
        ensures { IfOk result (λ reply. reply ≡ operations.report self.now.context) }
    {
        let untold = results::untold(self.context.operations.as_slice(), self.told);
        let results = results::results_of(self.alloc, untold)?;
        Ok(Reply::Report(results))
    }

    /// Whether there is an operation of the call.
    pub fn has(&self, call: u64) -> bool
        ensures value { result ≡ has_operation self.now.context call }
        ensures ordered { IsOrdered self.now }
    {
        words::has_operation(&self.context, call)
    }

    /// Whether the piece is there and may come: it is left, no fence holds it back, and a copy's write has
    /// the bytes of its read.
    pub fn may_come(&self, call: u64, piece: u32) -> bool
        ensures { result ≡ effects.may_come_of self.now.context call piece }
    {
        match words::find(&self.context, call) {
            Some(operation) => words::may_come(
                &self.context,
                self.first,
                operation,
                piece as usize,
            ),
            None => false,
        }
    }

    /// Whether the piece is there and left.
    pub fn is_left(&self, call: u64, piece: u32) -> bool
        ensures { result ≡ effects.is_left_of self.now.context call piece }
    {
        match words::find(&self.context, call) {
            Some(operation) => words::has_left_at(operation, piece as usize),
            None => false,
        }
    }

    /// A piece of an operation. A copy's write has the bytes of its read once that was collected.
    pub fn piece(&self, call: u64, piece: u32) -> &PlanPiece
        requires { IsSome (effects.piece_of self.now.context call piece) }
        ensures { option_map (λ p. p.piece) (effects.piece_of self.now.context call piece) ≡ Some result.now }
    {
        match words::find(&self.context, call) {
            Some(operation) => &operation.pieces.at(piece as usize).piece,
            None => unreachable!(),
        }
    }

    /// What an operation gives back.
    pub fn kind(&self, call: u64) -> PlanKind
        requires { IsTrue (has_operation self.now.context call) }
        ensures { option_map (λ operation. operation.kind) (operation_of self.now.context call) ≡ Some result }
    {
        match words::find(&self.context, call) {
            Some(operation) => operation.kind,
            None => unreachable!(),
        }
    }

    /// How many pieces are left of an operation whose result was not told. None where there is none.
    pub fn left(&self, call: u64) -> Option<u64>
        ensures { result ≡ effects.left_of self.now.context call }
    {
        let Some(at) = words::place_of(&self.context, call) else {
            return None;
        };
        if self.context.operations.at(at).reported {
            return None;
        }
        let side = &self.sides[at];
        Some(side.counts.held + side.counts.out)
    }

    /// Whether there is a copy of the call whose result was not told.
    pub fn is_copy(&self, call: u64) -> bool
        ensures { result ≡ effects.is_copy_of self.now.context call }
    {
        match words::find(&self.context, call) {
            Some(operation) => !operation.reported && words::is_copy(operation.kind),
            None => false,
        }
    }

    /// Whether there is an operation of the call, and this is its result.
    pub fn result_is(&self, call: u64, given: &Reply) -> bool
        ensures { result ≡ effects.is_result_of self.now.context call given.now }
    {
        match words::find(&self.context, call) {
            Some(operation) => results::is_result(operation, given),
            None => false,
        }
    }

    /// Whether this is the report of all nonblocking operations that were not reported yet.
    pub fn report_is(&self, given: &Reply) -> bool
        ensures { result ≡ same_reply given.now (operations.report self.now.context) }
    {
        results::is_report(&self.context, self.told, given)
    }

    /// A new operation, with all its pieces left and none out. After want of memory all is as it was.
    pub fn issue(&mut self, call: u64, plan: Plan, blocking: bool) -> Result<(), NoMemory>
        requires later { All (λ operation. operation.call < call) self.old.context.operations }
        requires turns { IsTrue (is_planned_in_turn plan) }
        ensures ok { OnOk result (self.new ≡ effects.issued self.old call plan blocking) }
        ensures err { OnErr result (self.new ≡ self.old) }
    {
        let count = plan.pieces.len();
        if count > MOST_PIECES {
            return Err(NoMemory);
        }
        let Some(pieces) = self.pieces.checked_add(count as u64) else {
            return Err(NoMemory);
        };
        let operation = planned(self.alloc, call, self.context.epoch, plan, blocking)?;
        let side = fresh(self.alloc, &operation, count)?;
        add(&mut self.context, &mut self.sides, operation, side)?;
        self.pieces = pieces;
        self.pending.held += count as u64;
        self.first = advance(self.sides.as_slice(), self.first, self.first);
        Ok(())
    }

    /// Whether the call comes after those of all operations, and the plan, if it is a copy, reads and writes in
    /// turn. It looks at all operations: for callers that do not know.
    pub fn may_issue(&self, call: u64, plan: &Plan) -> bool
        ensures { result ≡ (list_all (λ operation. nat_lt operation.call call) self.now.context.operations && is_planned_in_turn plan.now) }
    {
        words::are_before(&self.context, call) && words::is_in_turn(plan)
    }

    /// Whether the piece is left and may have this answer: a refusal, or just so many bytes as it has for a
    /// read and a fetching atomic, or `Ok` for any other piece.
    pub fn may_collect(&self, call: u64, piece: u32, answer: &PieceAnswer) -> bool
        ensures { result ≡ effects.may_collect self.now.context call piece answer.now }
    {
        match words::find(&self.context, call) {
            Some(operation) => words::may_answer(operation, piece as usize, answer),
            None => false,
        }
    }

    /// Whether the operation is blocking or a copy, has no piece left, and its result was not told.
    pub fn may_tell(&self, call: u64) -> bool
        ensures { result ≡ effects.may_tell self.now.context call }
    {
        match words::find(&self.context, call) {
            Some(operation) => {
                !operation.reported
                    && (operation.blocking || words::is_copy(operation.kind))
                    && !words::has_left(operation)
            }
            None => false,
        }
    }

    /// A piece is answered. A copy's read is answered with the bytes that it read: it is then done, and its
    /// write has them. With a refused read its write is gone.
    pub fn collected(&mut self, call: u64, piece: u32, answer: PieceAnswer)
        requires { IsTrue (effects.may_collect self.old.context call piece answer) }
        ensures { self.new ≡ effects.collected self.old call piece answer }
    {
        let Some(at) = words::place_of(&self.context, call) else {
            return;
        };
        let side = &mut self.sides[at];
        let before = side.counts;
        let operation = self.context.operations.at_mut(at);
        collect(self.alloc, operation, side, piece as usize, answer);
        self.pending = recount(self.pending, before, side.counts);
        self.first = advance(self.sides.as_slice(), self.first, at);
    }

    /// A piece is lost, and with a copy's read its write.
    pub fn lose(&mut self, call: u64, piece: u32)
        requires { IsTrue (effects.is_left_of self.old.context call piece) }
        ensures { self.new ≡ effects.lost self.old call piece }
    {
        let Some(at) = words::place_of(&self.context, call) else {
            return;
        };
        let side = &mut self.sides[at];
        let before = side.counts;
        lose(self.context.operations.at_mut(at), side, piece as usize);
        self.pending = recount(self.pending, before, side.counts);
        self.first = advance(self.sides.as_slice(), self.first, at);
    }

    /// The result of an operation was told.
    pub fn mark_answered(&mut self, call: u64)
        requires { IsTrue (has_operation self.old.context call) }
        ensures { self.new ≡ effects.told self.old call }
    {
        let Some(at) = words::place_of(&self.context, call) else {
            return;
        };
        let side = &mut self.sides[at];
        let before = side.counts;
        tell(self.context.operations.at_mut(at), side);
        self.pending = recount(self.pending, before, side.counts);
    }

    /// All results were told.
    pub fn mark_reported(&mut self)
        ensures { self.new ≡ effects.reported self.old }
    {
        report_all(&mut self.context.operations, self.told);
        tell_each(&mut self.sides, self.told);
        self.pending.done = 0;
        self.told = self.context.operations.len();
    }

    /// Whether the piece may come and is not out.
    pub fn may_post(&self, call: u64, piece: u32) -> bool
        ensures { result ≡ effects.may_post self.now call piece }
    {
        self.may_come(call, piece) && !self.is_out(call, piece)
    }

    /// Whether the piece is out.
    fn is_out(&self, call: u64, piece: u32) -> bool
        ensures { result ≡ effects.is_out self.now call piece }
    {
        match words::place_of(&self.context, call) {
            Some(at) => flag_at(self.sides.as_slice(), at, piece as usize),
            None => false,
        }
    }

    /// A piece is posted: it is out from now on.
    pub fn posted(&mut self, call: u64, piece: u32)
        requires { IsTrue (effects.may_post self.old call piece) }
        ensures { self.new ≡ effects.posted self.old call piece }
    {
        let Some(at) = words::place_of(&self.context, call) else {
            return;
        };
        let side = &mut self.sides[at];
        let before = side.counts;
        set_flag(self.context.operations.at(at), side, piece as usize, true);
        self.pending = recount(self.pending, before, side.counts);
        self.first = advance(self.sides.as_slice(), self.first, at);
    }

    /// The results of all nonblocking operations that were not reported yet, in order of call. All results are
    /// then told. After want of memory all is as it was.
    pub fn report(&mut self) -> Result<Reply, NoMemory>
        requires { IsFalse (operations.is_pending self.old.context) }
        ensures ok { IfOk result (λ reply. (reply ≡ operations.report self.old.context) × (self.new ≡ effects.reported self.old)) }
        ensures err { OnErr result (self.new ≡ self.old) }
    {
        let untold = results::untold(self.context.operations.as_slice(), self.told);
        let results = results::results_of(self.alloc, untold)?;
        self.mark_reported();
        Ok(Reply::Report(results))
    }

    /// How many pieces are held, how many are out, and how many are answered while their operation's result was
    /// not told.
    pub fn pending(&self) -> Pending
        ensures { result ≡ pending_of self.now }
    {
        self.pending
    }

    /// The reply to a blocking call, or to waiting for a copy. Its result is then told. It takes no memory: that
    /// of a get's bytes was taken at issue.
    pub fn answer(&mut self, call: u64) -> Reply
        requires { IsTrue (effects.may_tell self.old.context call) }
        ensures reply { option_map operations.result (operation_of self.old.context call) ≡ Some result }
        ensures after { self.new ≡ effects.told self.old call }
    {
        let Some(at) = words::place_of(&self.context, call) else {
            unreachable!()
        };
        let side = &mut self.sides[at];
        let before = side.counts;
        let reply = give_result(self.alloc, self.context.operations.at_mut(at), side);
        self.pending = recount(self.pending, before, side.counts);
        reply
    }

    /// The first piece, by call and number, that may come, is not out, and begins on the stripe.
    pub fn next_on(&self, stripe: u32) -> Option<(u64, u32)>
        ensures { MatchOption result (NoneOn self.now stripe) (IsNextOn self.now stripe) }
    {
        for at in self.first..self.sides.len() {
            let operation = self.context.operations.at(at);
            if !words::is_past_fences(&self.context, self.first, operation) {
                return None;
            }
            let side = &self.sides[at];
            if let Some(piece) = next_in(&self.context, self.first, operation, side, stripe) {
                return Some((operation.call, piece));
            }
        }
        None
    }
}
