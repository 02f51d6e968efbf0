//! The lists of all stripes.

ghost use Rattle.std.specs.Prelude.{◌≡◌, ◌<◌, [], length, replicate, slice_get, true, IfOk, IsOk, OnOk, OnErr, Some};
ghost use Rattle.fam_model.specs.Lists.{change_place};
ghost use Rattle.ready_lists.specs.Lists.{AreSorted, busy_stripes, has_name, names_at, with_name, without_name};
ghost use Rattle.ready_lists.specs.Views.{name_of};

use crate::names::Names;
use crate::piece::PieceAt;
use fam_base::NoMemory;
use std::alloc::Global;
use std::marker::Model;

/// For each stripe a list of pieces, in order and each once.
#[derive(Debug, Drop)]
pub struct ReadyLists {
    lists: Vec<Names>,
}

impl Model for ReadyLists {
    ghost use Rattle.std.specs.Prelude.{List};
    ghost use Rattle.fam_schedule.specs.Schedule.{PieceName};
    ghost use Rattle.ready_lists.specs.Lists.{AreSorted};

    ghost Value = { List (List PieceName) };

    ghost view = { λ r. r.lists.items };

    ghost invariant = { λ r. AreSorted r.lists.items };
}

impl ReadyLists {
    /// An empty list for each of this many stripes.
    pub fn new(alloc: Global, stripes: usize) -> Result<ReadyLists, NoMemory>
        ensures { IfOk result (λ lists. lists ≡ replicate stripes []) }
    {
        let lists = empty_lists(alloc, stripes)?;
        Ok(ReadyLists { lists })
    }

    /// How many stripes there are.
    pub fn stripes(&self) -> usize
        ensures value { result ≡ length self.now }
        ensures sorted { AreSorted self.now }
    {
        self.lists.len()
    }

    /// How many pieces the stripe has.
    pub fn count(&self, stripe: usize) -> usize
        requires { stripe < length self.now }
        ensures { result ≡ length (names_at self.now stripe) }
    {
        self.lists[stripe].len()
    }

    /// The k-th piece of the stripe.
    pub fn at(&self, stripe: usize, k: usize) -> PieceAt
        requires there { stripe < length self.now }
        requires within { k < length (names_at self.now stripe) }
        ensures { slice_get (names_at self.now stripe) k ≡ Some (name_of result) }
    {
        self.lists[stripe].at(k)
    }

    /// Whether the stripe has this piece.
    pub fn has(&self, stripe: usize, piece: PieceAt) -> bool
        requires { stripe < length self.now }
        ensures { result ≡ has_name (name_of piece) (names_at self.now stripe) }
    {
        self.lists[stripe].has(piece)
    }

    /// Puts the piece into its place in the stripe's list, where it may stand already, and then needs no memory. Where memory is wanting,
    /// all is as it was.
    pub fn insert(&mut self, stripe: usize, piece: PieceAt) -> Result<(), NoMemory>
        requires { stripe < length self.old }
        ensures ok { OnOk result (self.new ≡ change_place stripe (with_name (name_of piece)) self.old) }
        ensures held { has_name (name_of piece) (names_at self.old stripe) ≡ true → IsOk result }
        ensures err { OnErr result (self.new ≡ self.old) }
    {
        self.lists[stripe].insert(piece)
    }

    /// Takes the piece out of the stripe's list, if it stands there.
    pub fn remove(&mut self, stripe: usize, piece: PieceAt)
        requires { stripe < length self.old }
        ensures { self.new ≡ change_place stripe (without_name (name_of piece)) self.old }
    {
        self.lists[stripe].remove(piece);
    }

    /// How many stripes have a piece.
    pub fn busy(&self) -> usize
        ensures { result ≡ length (busy_stripes self.now) }
    {
        let mut busy = 0;
        for stripe in 0..self.stripes() {
            if self.count(stripe) != 0 {
                busy += 1;
            }
        }
        busy
    }

    /// The k-th of the stripes that have a piece.
    pub fn busy_at(&self, k: usize) -> usize
        requires { k < length (busy_stripes self.now) }
        ensures { slice_get (busy_stripes self.now) k ≡ Some result }
    {
        let mut left = k;
        for stripe in 0..self.stripes() {
            if self.count(stripe) != 0 {
                if left == 0 {
                    return stripe;
                }
                left -= 1;
            }
        }
        // Not reached: there are more than `k` of them.
        0
    }
}

fn empty_lists(alloc: Global, stripes: usize) -> Result<Vec<Names>, NoMemory>
    ensures { IfOk result (λ lists. lists.items ≡ replicate stripes []) }
{
    let mut lists = Vec::new(alloc);
    for _ in 0..stripes {
        lists.push(Names::new(alloc))?;
    }
    Ok(lists)
}
