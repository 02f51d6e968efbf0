//! The pieces of one stripe, in order and each once.

ghost use Rattle.std.specs.Prelude.{◌≡◌, ◌<◌, ◌≤◌, [], map, length, slice_get, true, IsOk, OnOk, OnErr, Some};
ghost use Rattle.ready_lists.specs.Lists.{IsSorted, has_name, is_before, with_name, without_name};
ghost use Rattle.ready_lists.specs.Places.{place_of_name, stands_at};
ghost use Rattle.ready_lists.specs.Views.{name_of};

use crate::piece::PieceAt;
use fam_base::NoMemory;
use std::alloc::Global;
use std::marker::Model;

#[derive(Debug, Drop)]
pub(crate) struct Names {
    items: Vec<PieceAt>,
}

impl Model for Names {
    ghost use Rattle.std.specs.Prelude.{List, map};
    ghost use Rattle.fam_schedule.specs.Schedule.{PieceName};
    ghost use Rattle.ready_lists.specs.Lists.{IsSorted};
    ghost use Rattle.ready_lists.specs.Views.{name_of};

    ghost Value = { List PieceName };

    ghost view = { λ n. map name_of n.items.items };

    ghost invariant = { λ n. IsSorted (map name_of n.items.items) };
}

impl Names {
    pub(crate) fn new(alloc: Global) -> Names
        ensures { result ≡ [] }
    {
        Names {
            items: Vec::new(alloc),
        }
    }

    pub(crate) fn len(&self) -> usize
        ensures { result ≡ length self.now }
    {
        self.items.len()
    }

    pub(crate) fn at(&self, k: usize) -> PieceAt
        requires { k < length self.now }
        ensures { slice_get self.now k ≡ Some (name_of result) }
    {
        self.items[k]
    }

    pub(crate) fn has(&self, piece: PieceAt) -> bool
        ensures { result ≡ has_name (name_of piece) self.now }
    {
        let place = place_of(self.items.as_slice(), piece);
        stands_at(self.items.as_slice(), place, piece)
    }

    pub(crate) fn insert(&mut self, piece: PieceAt) -> Result<(), NoMemory>
        ensures ok { OnOk result (self.new ≡ with_name (name_of piece) self.old) }
        ensures held { has_name (name_of piece) self.old ≡ true → IsOk result }
        ensures err { OnErr result (self.new ≡ self.old) }
    {
        let place = place_of(self.items.as_slice(), piece);
        if stands_at(self.items.as_slice(), place, piece) {
            return Ok(());
        }
        self.items.insert(place, piece)?;
        Ok(())
    }

    pub(crate) fn remove(&mut self, piece: PieceAt)
        ensures { self.new ≡ without_name (name_of piece) self.old }
    {
        let place = place_of(self.items.as_slice(), piece);
        if stands_at(self.items.as_slice(), place, piece) {
            self.items.remove(place);
        }
    }
}

/// How many pieces come before this one.
fn place_of(items: &[PieceAt], piece: PieceAt) -> usize
    requires { IsSorted (map name_of items.now) }
    ensures value { result ≡ place_of_name (name_of piece) (map name_of items.now) }
    ensures within { result ≤ length items.now }
{
    items.partition_point(
        |item: &PieceAt| -> bool
            ensures { result ≡ is_before (name_of item.now) (name_of piece) }
        { item.is_before(piece) },
    )
}

/// Whether the piece stands at this place.
fn stands_at(items: &[PieceAt], place: usize, piece: PieceAt) -> bool
    ensures { result ≡ stands_at (name_of piece) (map name_of items.now) place }
{
    match items.get(place) {
        Some(item) => piece.is_same(*item),
        None => false,
    }
}
