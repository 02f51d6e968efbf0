//! Keeping a change in a journal.

ghost use Rattle.std.specs.Prelude.{◌≡◌, ◌↔◌, ◌<◌, ◌^◌, Some, Ok, true, IsTrue, OnOk};
ghost use Rattle.fam_model.specs.declared.rows.Rows.{Rows};
ghost use Rattle.fam_model.specs.Lawful.{is_lawful_change};
ghost use Rattle.meta_codec.specs.Body.{HasBody};
ghost use Rattle.meta_journal.specs.Laws.{group_given};
ghost use Rattle.meta_journal.specs.State as journals;
ghost use Rattle.fam_keeper.specs.Keeping as keeping;

use crate::kept::Kept;
use crate::same::is_same;
use fam_base::{FamError, NoMemory};
use fam_directory::IndexedRows;
use fam_disk::Disk;
use fam_model::Change;
use meta_journal::Journal;

/// The group that a change gives, and 0 where it gives none.
fn group_of(change: &Change) -> u32
    ensures value { result ≡ group_given change.now }
    ensures bound { result < 2 ^ 32 }
{
    match change {
        Change::CreateRegion { gid, .. } | Change::Allocate { gid, .. } => *gid,
        _ => 0,
    }
}

/// Takes the memory for the append of a change that fits.
fn reserve_fitting<D: Disk>(
    journal: &mut Journal<D>,
    rows: &IndexedRows,
    change: &Change,
) -> Result<(), NoMemory>
    requires kept { keeping.HasKept journal.old rows.now }
    requires lawful_change { IsTrue (is_lawful_change rows.now change.now) }
    requires has_body { HasBody change.now }
    requires fits { IsTrue (journals.has_room journal.old.limit journal.old.used change.now) }
    ensures same { journals.IsUntouched journal.old journal.new }
    ensures sound { journals.IsSound journal.new }
    ensures acknowledged { journals.acknowledged journal.new ≡ journals.acknowledged journal.old }
    ensures ok { OnOk result (journals.IsReserved journal.new change.now rows.now) }
{
    // The contract alone speaks of them.
    let _rows = rows;
    match journal.reserve(change) {
        Ok(()) => Ok(()),
        Err(_) => Err(NoMemory),
    }
}

/// Takes the memory for the append of a change to a journal that has to be shortened first. A journal of the service's limit
/// is never full.
fn reserve_shortened<D: Disk>(
    journal: &mut Journal<D>,
    rows: &IndexedRows,
    change: &Change,
) -> Result<(), NoMemory>
    requires kept { keeping.HasKept journal.old rows.now }
    requires lawful_change { IsTrue (is_lawful_change rows.now change.now) }
    requires has_body { HasBody change.now }
    ensures same { journals.IsUntouched journal.old journal.new }
    ensures sound { journals.IsSound journal.new }
    ensures acknowledged { journals.acknowledged journal.new ≡ journals.acknowledged journal.old }
    ensures ok { OnOk result (journals.IsReserved journal.new change.now rows.now) }
{
    let Ok(rows) = rows.rows() else {
        return Err(NoMemory);
    };
    match journal.reserve_with(change, &rows) {
        Ok(()) => Ok(()),
        Err(FamError::JournalFull { .. }) => unreachable!(),
        Err(_) => Err(NoMemory),
    }
}

/// Takes the memory for the append of a change. The rows are copied only where the journal has to be shortened first.
fn reserve<D: Disk>(
    journal: &mut Journal<D>,
    rows: &IndexedRows,
    change: &Change,
) -> Result<(), NoMemory>
    requires kept { keeping.HasKept journal.old rows.now }
    requires lawful_change { IsTrue (is_lawful_change rows.now change.now) }
    requires has_body { HasBody change.now }
    ensures same { journals.IsUntouched journal.old journal.new }
    ensures sound { journals.IsSound journal.new }
    ensures acknowledged { journals.acknowledged journal.new ≡ journals.acknowledged journal.old }
    ensures ok { OnOk result (journals.IsReserved journal.new change.now rows.now) }
{
    if journal.fits(change) {
        reserve_fitting(journal, rows, change)
    } else {
        reserve_shortened(journal, rows, change)
    }
}

/// Whether a crash may leave this change, which was not acknowledged.
fn is_in_doubt<D: Disk>(journal: &Journal<D>, change: &Change) -> bool
    ensures { (result ≡ true) ↔ (journals.change_in_doubt journal.now.doubt ≡ Some change.now) }
{
    match journal.doubt() {
        Some(doubt) => is_same(doubt, change),
        None => false,
    }
}

/// Keeps a change for which memory was taken.
fn append_reserved<D: Disk>(journal: &mut Journal<D>, change: &Change) -> Kept
    requires sound { journals.IsSound journal.old }
    requires reserved { (rows : Rows) × journals.IsReserved journal.old change.now rows }
    ensures { (rows : Rows) → keeping.HasKept journal.old rows → keeping.IsAppended rows change.now journal.old journal.new (Ok result) }
{
    match journal.append(change) {
        Ok(()) => Kept::Served,
        Err(_) => Kept::Refused {
            doubt: is_in_doubt(journal, change),
        },
    }
}

/// Keeps a lawful change of these rows in a journal.
pub fn append<D: Disk>(
    journal: &mut Journal<D>,
    rows: &IndexedRows,
    change: &Change,
) -> Result<Kept, NoMemory>
    requires kept { keeping.HasKept journal.old rows.now }
    requires lawful_change { IsTrue (is_lawful_change rows.now change.now) }
    ensures { keeping.IsAppended rows.now change.now journal.old journal.new result }
{
    prove!(u64::from(group_of(change)) < 0x1_0000_0000);
    rows.rows_are_lawful();
    match reserve(journal, rows, change) {
        Ok(()) => Ok(append_reserved(journal, change)),
        Err(NoMemory) => Err(NoMemory),
    }
}
