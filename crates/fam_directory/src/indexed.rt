//! Rows behind their indexes, which contracts see as plain rows.

ghost use Rattle.std.specs.Prelude.{◌≡◌, length, IfOk, OnOk, OnErr, IsTrue};
ghost use Rattle.std.specs.Option.{option_copied};
ghost use Rattle.fam_model.specs.Directory as words;
ghost use Rattle.fam_model.specs.Lawful as lawful;
ghost use Rattle.fam_model.specs.Rows as row_words;
ghost use Rattle.fam_model.specs.Rows.{IsLawful};

use crate::directory::Directory;
use crate::listing::ItemRows;
use fam_base::{FamError, ItemId, NoMemory, Who};
use fam_model::{Change, ItemRow, Reply, Request, Rows};
use std::alloc::Global;
use std::marker::Model;

/// A directory of which contracts see the rows alone.
#[derive(Drop)]
pub struct IndexedRows {
    directory: Directory,
}

impl Model for IndexedRows {
    ghost use Rattle.fam_model.specs.declared.rows.Rows.{Rows};

    ghost Value = { Rows };

    ghost view = { λ i. i.directory.rows };
}

impl IndexedRows {
    /// These rows with their indexes.
    pub fn of_rows(alloc: Global, rows: &Rows) -> Result<IndexedRows, NoMemory>
        requires { IsLawful rows.now }
        ensures { IfOk result (λ indexed. indexed ≡ rows.now) }
    {
        Ok(IndexedRows {
            directory: Directory::of_rows(alloc, rows)?,
        })
    }

    /// A copy of all rows.
    pub fn rows(&self) -> Result<Rows, NoMemory>
        ensures rows { IfOk result (λ rows. rows ≡ self.now) }
        ensures lawful { IfOk result (λ rows. IsLawful rows) }
    {
        self.directory.rows()
    }

    /// The rows are lawful.
    pub fn rows_are_lawful(&self)
        ensures { IsLawful self.now }
    {
        self.directory.rows_are_lawful()
    }

    /// The row of an item.
    pub fn item(&self, number: ItemId) -> Option<&ItemRow>
        ensures { option_copied result ≡ row_words.item_of self.now number.0 }
    {
        self.directory.item(number)
    }

    /// The rows of all items, in order of number.
    pub fn items(&self) -> ItemRows<'_>
        ensures { result ≡ self.now.items }
    {
        self.directory.items()
    }

    /// How many regions there are.
    pub fn region_count(&self) -> usize
        ensures { result ≡ length self.now.regions }
    {
        self.directory.region_count()
    }

    /// How many items there are.
    pub fn item_count(&self) -> usize
        ensures { result ≡ length self.now.items }
    {
        self.directory.item_count()
    }

    /// The number of the next region.
    pub fn next_region(&self) -> u64
        ensures { result ≡ self.now.next_region }
    {
        self.directory.next_region()
    }

    /// The number of the next item.
    pub fn next_item(&self) -> u64
        ensures { result ≡ self.now.next_item }
    {
        self.directory.next_item()
    }

    /// The first refusal of a request, if there is one.
    pub fn refusal(&self, who: Who, request: &Request) -> Option<FamError>
        ensures { result ≡ words.refusal self.now who request.now }
    {
        self.directory.refusal(who, request)
    }

    /// The reply to a look-up or a stat that is not refused; no other request has one.
    pub fn found(&self, request: &Request) -> Result<Option<Reply>, NoMemory>
        ensures { IfOk result (λ reply. reply ≡ words.found self.now request.now) }
    {
        self.directory.found(request)
    }

    /// The least base at which a new item of a request fits; 0 for other requests.
    pub fn first_base(&self, request: &Request) -> Option<u64>
        ensures { result ≡ words.first_base self.now request.now }
    {
        self.directory.first_base(request)
    }

    /// Whether a new item of a request may lie at `base`; other requests have none.
    pub fn may_lie(&self, request: &Request, base: u64) -> bool
        ensures { result ≡ words.may_lie self.now request.now base }
    {
        self.directory.may_lie(request, base)
    }

    /// The change that serves a request of this caller, with a new item at `base`; a look-up and a stat have none.
    pub fn change_at(
        &self,
        who: Who,
        request: &Request,
        base: u64,
    ) -> Result<Option<Change>, NoMemory>
        ensures { IfOk result (λ change. change ≡ words.change_at self.now who request.now base) }
    {
        self.directory.change_at(who, request, base)
    }

    /// Whether a change leads from these rows to lawful rows, gives no number twice, and leaves the common rows alone.
    pub fn is_lawful_change(&self, change: &Change) -> bool
        ensures { result ≡ lawful.is_lawful_change self.now change.now }
    {
        self.directory.is_lawful_change(change)
    }

    /// Makes a lawful change. Where memory is wanting the rows stay as they are.
    pub fn apply(&mut self, change: &Change) -> Result<(), NoMemory>
        requires { IsTrue (lawful.is_lawful_change self.old change.now) }
        ensures ok { OnOk result (self.new ≡ words.after self.old change.now) }
        ensures err { OnErr result (self.new ≡ self.old) }
    {
        self.directory.reserve(change)?;
        self.directory.apply(change);
        Ok(())
    }
}
