//! What a pass does while it has the turn.
ghost use Rattle.std.specs.Prelude.{◌≡◌, ℕ, ◌+◌, ◌-◌, ◌*◌, ◌^◌, ◌<◌, ◌≤◌, ◌⊎◌, ◌↔◌, [], ◌∷◌, ◌++◌, true, false, Some, length, max, vec_capacity, IfOk, IfErr, OnOk};
ghost use Rattle.turn_cell.specs.Turn.{IsOwn, KnowsOwn, freed};
ghost use Rattle.turn_cell.specs.Refusals.{IsWant, IsFull, IsRefusal};
ghost use Rattle.turn_cell.specs.Words.{IsHeld, IsPassOf, IsSamePass, IsSameTurn, IsReserved, HasRoom, HasRoomToCut, SameBut, IsMade, CanCut, IsCut, CutsView, entry, with_entry, let_go, view_of, view_in, pass_of, cell_of, store_of, reference_of, number_of, limit_of, used_of};

use crate::cell::{HeldWith, Kept};
use crate::object::Object;
use crate::view::{Entry, Store};
use fam_base::{FamError, NoMemory, Stamp};
use std::alloc::Global;

const LAST: u64 = 1 << 62;

impl<'a, 'c, O: Object> HeldWith<'a, 'c, O, Kept<O>> {
    /// The object, after all calls of the history.
    pub fn object(&self) -> &O
        ensures { result.now ≡ (store_of self.now).object }
    {
        &self.kept.store.object
    }

    /// The stamp of the last entry, and 0 where there is none.
    pub fn stamp(&self) -> Stamp
        ensures { result ≡ (store_of self.now).stamp }
    {
        self.kept.store.stamp
    }

    /// Makes room for a call and its entry, and gives the reply that `finish` will fill in. It may be called again, for this call or another: the last one counts.
    /// `HistoryFull` comes exactly where there would be more entries than the limit, the reserved ones counted, or a stamp of 2^62 or more. `Memory` for a call that needs no entry comes only from the object.
    pub fn reserve(&mut self, call: &O::Call, stamp: Stamp) -> Result<O::Reply, FamError>
        requires held { IsHeld O.meaning O.gives O.held_back O.owner self.old }
        requires asks { O.asks (O.meaning (store_of self.old).object) call.now }
        requires owner { IsOwn (view_in self.old).owners (O.owner call.now) }
        ensures same_reference { reference_of self.new ≡ reference_of self.old }
        ensures same { IsSameTurn O.meaning self.old self.new }
        ensures held { IsHeld O.meaning O.gives O.held_back O.owner self.new }
        ensures ok { IfOk result (λ copy. HasRoom O.meaning O.held_back O.needs O.fits O.ready self.new call.now copy) }
        ensures early { OnOk result (max (store_of self.old).stamp.0 stamp.0 < 2 ^ 62) }
        ensures full { let used = used_of O.meaning O.held_back self.old in let need = O.needs (O.meaning (store_of self.old).object) call.now in
            IsFull (limit_of (cell_of self.old)) used need (max (store_of self.old).stamp.0 stamp.0) ↔ (result ≡ Err (FamError.HistoryFull used need)) }
        ensures refused { IfErr result (IsRefusal (O.refuses (O.meaning (store_of self.old).object) call.now) (used_of O.meaning O.held_back self.old) (O.needs (O.meaning (store_of self.old).object) call.now)) }
    {
        let used = self.kept.used();
        let need = self.kept.store.object.need(call);
        if need > self.cell.limit - used || self.kept.store.stamp.0.max(stamp.0) >= LAST {
            return Err(FamError::HistoryFull { used, need });
        }
        self.kept.make_room(call, need)
    }

    /// Makes the call, adds its entry to the history, and gives the turn back. It needs the reply of the last `reserve`, which was for this call, and takes no memory.
    pub fn finish(self, call: O::Call, stamp: Stamp, copy: O::Reply) -> O::Reply
        requires held { IsHeld O.meaning O.gives O.held_back O.owner self }
        requires reserved { HasRoom O.meaning O.held_back O.needs O.fits O.ready self call copy }
        requires owner { IsOwn (view_in self).owners (O.owner call) }
        requires stamp { (store_of self).stamp.0 < stamp.0 }
        ensures pass { IsPassOf (cell_of self.entry) self.exit.0.now × IsSamePass (pass_of self.entry) self.exit.0.now }
        ensures added { view_of self.exit.0.now ≡ with_entry (view_in self.entry) (entry stamp (number_of (pass_of self.entry)) call result) }
        ensures own { KnowsOwn O.owner (view_of self.exit.0.now) }
        ensures answer { (m : O.Meaning) × O.gives (O.meaning (store_of self.entry).object) call result m }
    {
        let HeldWith { pass, cell, kept } = self;
        let (store, reply) = kept.make(pass.number, call, stamp, copy);
        cell.give(pass, store);
        reply
    }

    /// Makes room for a cut. Where memory is wanting nothing has changed.
    pub fn reserve_cut(&mut self) -> Result<(), NoMemory>
        requires held { IsHeld O.meaning O.gives O.held_back O.owner self.old }
        ensures same_reference { reference_of self.new ≡ reference_of self.old }
        ensures same { (pass_of self.new ≡ pass_of self.old) × (cell_of self.new ≡ cell_of self.old) × (store_of self.new ≡ store_of self.old) }
        ensures held { IsHeld O.meaning O.gives O.held_back O.owner self.new }
        ensures ok { OnOk result (HasRoomToCut O.meaning O.held_back self.new) }
    {
        self.kept.make_blank()
    }

    /// Hands out the entries since the last cut, and gives the turn back. The history, its stamp and the object stay. It takes no memory, and needs the first pass and `reserve_cut`.
    pub fn cut(self) -> Vec<Entry<O::Call, O::Reply>, Global>
        requires held { IsHeld O.meaning O.gives O.held_back O.owner self }
        requires ready { HasRoomToCut O.meaning O.held_back self }
        requires first { (view_in self).leads ≡ true }
        ensures pass { IsPassOf (cell_of self.entry) self.exit.0.now × IsSamePass (pass_of self.entry) self.exit.0.now }
        ensures entries { result.items ≡ (store_of self.entry).entries.items }
        ensures cut { CutsView O.meaning (store_of self.entry).object (view_in self.entry) (view_of self.exit.0.now) }
        ensures own { KnowsOwn O.owner (view_of self.exit.0.now) }
    {
        let HeldWith { pass, cell, kept } = self;
        let (store, entries) = kept.cut();
        cell.give(pass, store);
        entries
    }

    /// Gives the turn back, with nothing added.
    pub fn give_back(self)
        requires { IsHeld O.meaning O.gives O.held_back O.owner self }
        ensures pass { IsPassOf (cell_of self.entry) self.exit.0.now × IsSamePass (pass_of self.entry) self.exit.0.now }
        ensures same { view_of self.exit.0.now ≡ let_go (view_in self.entry) }
        ensures own { KnowsOwn O.owner (view_of self.exit.0.now) }
    {
        let HeldWith { pass, cell, kept } = self;
        cell.give(pass, kept.into_store());
    }
}

impl<O: Object> Kept<O> {
    fn into_store(self) -> Store<O, O::Call, O::Reply>
        ensures { result ≡ self.store }
    {
        let Kept {
            store,
            out: _out,
            blank: _blank,
        } = self;
        store
    }

    fn make_blank(&mut self) -> Result<(), NoMemory>
        ensures same { (self.new.store ≡ self.old.store) × (self.new.out ≡ self.old.out) }
        ensures ok { OnOk result (CanCut O.meaning O.held_back self.new) }
    {
        let alloc = *self.store.entries.allocator();
        let reserved = self.store.object.reserved() as usize;
        let Ok(blank) = Vec::with_capacity(alloc, reserved) else {
            return Err(NoMemory);
        };
        self.blank = Some(blank);
        Ok(())
    }

    // The store without its entries, and these.
    fn cut(
        self,
    ) -> (
        Store<O, O::Call, O::Reply>,
        Vec<Entry<O::Call, O::Reply>, Global>,
    )
        requires ready { CanCut O.meaning O.held_back self }
        requires small { self.store.cut + length self.store.entries.items < 2 ^ 64 }
        ensures { IsCut O.meaning O.held_back self.store result.0 × (result.1.items ≡ self.store.entries.items) }
    {
        let Kept {
            store,
            out: _out,
            blank,
        } = self;
        let Store {
            object,
            entries,
            stamp,
            cut,
        } = store;
        let blank = blank.unwrap();
        let store = Store {
            object,
            entries: blank,
            stamp,
            cut: cut + entries.len() as u64,
        };
        (store, entries)
    }

    // The entries that there are, and those that are reserved.
    fn used(&self) -> u64
        requires { length self.now.store.entries.items + O.held_back (O.meaning self.now.store.object) < 2 ^ 63 }
        ensures { result ≡ length self.now.store.entries.items + O.held_back (O.meaning self.now.store.object) }
    {
        self.store.entries.len() as u64 + self.store.object.reserved()
    }

    fn make_room(&mut self, call: &O::Call, need: u64) -> Result<O::Reply, FamError>
        requires asks { O.asks (O.meaning self.old.store.object) call.now }
        requires need { need ≡ O.needs (O.meaning self.old.store.object) call.now }
        requires few { need + O.held_back (O.meaning self.old.store.object) < 2 ^ 63 }
        requires room { length self.old.store.entries.items + O.held_back (O.meaning self.old.store.object) ≤ vec_capacity self.old.store.entries }
        ensures same { SameBut O.meaning self.old self.new }
        ensures err { IfErr result (λ e. IsWant e × (((e ≡ FamError.Memory) × (0 < need)) ⊎ O.refuses (O.meaning self.old.store.object) call.now e)) }
        ensures ok { IfOk result (λ copy. (out : O.Reply) × (self.new.out ≡ Some out) × O.fits (O.meaning self.new.store.object) call.now × O.ready self.new.store.object call.now out × O.ready self.new.store.object call.now copy
            × (length self.new.store.entries.items + O.held_back (O.meaning self.new.store.object) + need ≤ vec_capacity self.new.store.entries)) }
    {
        if need > 0 {
            let more = self.store.object.reserved() + need;
            if self.store.entries.reserve(more as usize).is_err() {
                return Err(FamError::Memory);
            }
        }
        let out = self.store.object.room(call)?;
        let copy = self.store.object.room(call)?;
        self.out = Some(out);
        Ok(copy)
    }

    fn make(
        self,
        number: u64,
        call: O::Call,
        stamp: Stamp,
        copy: O::Reply,
    ) -> (Store<O, O::Call, O::Reply>, O::Reply)
        requires { (limit : ℕ) × IsReserved O.meaning O.held_back O.needs O.fits O.ready limit self call copy }
        ensures { IsMade O.meaning O.gives O.held_back O.needs self.store (entry stamp number call result.1) result.0 }
    {
        let Kept {
            store,
            out,
            blank: _blank,
        } = self;
        let Store {
            mut object,
            mut entries,
            stamp: _,
            cut,
        } = store;
        let mut reply = copy;
        let mut out = out.unwrap();
        object.apply(&call, &mut out, &mut reply);
        entries.push_reserved(Entry {
            stamp,
            pass: number,
            call,
            reply: out,
        });
        let store = Store {
            object,
            entries,
            stamp,
            cut,
        };
        (store, reply)
    }
}
