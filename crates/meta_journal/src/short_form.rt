//! The short form of a journal: the shortest changes that make its rows.

ghost use Rattle.std.specs.Prelude.{◌≡◌, ◌≢◌, ◌+◌, ◌<◌, ◌≤◌, ◌^◌, ◌++◌, [], ◌∷◌, drop, OnOk, IfOk, All};
ghost use Rattle.fam_model.specs.declared.change.Change.TheVariants as change;
ghost use Rattle.fam_model.specs.declared.rows.Rows.{Rows};
ghost use Rattle.fam_model.specs.Journal as words;
ghost use Rattle.fam_model.specs.Limits.{number_end};
ghost use Rattle.fam_model.specs.Rows.{IsLawful, region_number, item_number};
ghost use Rattle.meta_codec.specs.Body.{HasBody};
ghost use Rattle.meta_journal.specs.Layout.{records};
ghost use Rattle.meta_journal.specs.Short.{Restores, short_bytes};
ghost use Rattle.meta_journal.specs.Writing.{Adds, IsOwnRow, Rises, next_behind};

use crate::record::push_record;
use fam_base::{Bytes, ItemId, Mode, NoMemory, RegionId};
use fam_model::{Change, ItemRow, RegionRow, Rows};
use std::alloc::Global;

/// The records of a short form so far, and the numbers that come next behind them.
#[derive(Drop)]
struct Form {
    alloc: Global,
    bytes: Vec<u8>,
    next_region: u64,
    next_item: u64,
}

/// A region's row but for its name.
#[derive(Clone, Copy)]
struct RegionFields {
    region: RegionId,
    uid: u32,
    gid: u32,
    mode: Mode,
    size: u64,
}

/// An item's row but for its name.
#[derive(Clone, Copy)]
struct ItemFields {
    item: ItemId,
    region: RegionId,
    base: u64,
    size: u64,
    uid: u32,
    gid: u32,
    mode: Mode,
}

/// An item's row as it is made.
fn item_change(row: ItemFields, name: Bytes) -> Change
    requires { IsOwnRow row.uid name }
    ensures value { result ≡ change.Allocate row.item row.region row.base row.size row.uid row.gid row.mode name }
    ensures body { HasBody result }
{
    let ItemFields {
        item,
        region,
        base,
        size,
        uid,
        gid,
        mode,
    } = row;
    Change::Allocate {
        item,
        region,
        base,
        size,
        uid,
        gid,
        mode,
        name,
    }
}

/// A region's row as it is made. What is handed over by its value has the bounds of its type.
fn region_change(row: RegionFields, name: Bytes) -> Change
    requires { IsOwnRow row.uid name }
    ensures value { result ≡ change.CreateRegion row.region row.uid row.gid row.mode row.size name }
    ensures body { HasBody result }
{
    let RegionFields {
        region,
        uid,
        gid,
        mode,
        size,
    } = row;
    Change::CreateRegion {
        region,
        uid,
        gid,
        mode,
        size,
        name,
    }
}

/// The change that makes a region's row.
fn creation(alloc: Global, row: &RegionRow) -> Result<Change, NoMemory>
    requires { IsOwnRow row.now.uid row.now.name }
    ensures value { IfOk result (λ change. change ≡ words.creation row.now) }
    ensures body { OnOk result (HasBody (words.creation row.now)) }
{
    let name = Bytes::of(alloc, row.name.as_slice())?;
    let fields = RegionFields {
        region: row.number,
        uid: row.uid,
        gid: row.gid,
        mode: row.mode,
        size: row.size,
    };
    Ok(region_change(fields, name))
}

/// The change that makes an item's row.
fn allocation(alloc: Global, row: &ItemRow) -> Result<Change, NoMemory>
    requires { IsOwnRow row.now.uid row.now.name }
    ensures value { IfOk result (λ change. change ≡ words.allocation row.now) }
    ensures body { OnOk result (HasBody (words.allocation row.now)) }
{
    let name = Bytes::of(alloc, row.name.as_slice())?;
    let fields = ItemFields {
        item: row.number,
        region: row.region,
        base: row.base,
        size: row.size,
        uid: row.uid,
        gid: row.gid,
        mode: row.mode,
    };
    Ok(item_change(fields, name))
}

impl Form {
    /// Adds the record of a change behind an open gate.
    fn add(&mut self, change: &Change) -> Result<(), NoMemory>
        requires { HasBody change.now }
        ensures { OnOk result (Adds self.old self.new (change.now ∷ []) self.old.next_region self.old.next_item) }
    {
        self.bytes.push(1)?;
        push_record(self.alloc, &mut self.bytes, change)
    }

    /// Skips to these next numbers where either is lower so far.
    fn skip_to(&mut self, next_region: u64, next_item: u64) -> Result<(), NoMemory>
        requires region { self.old.next_region ≤ next_region }
        requires item { self.old.next_item ≤ next_item }
        ensures { OnOk result (Adds self.old self.new (words.skip_to self.old.next_region self.old.next_item next_region next_item) next_region next_item) }
    {
        if self.next_region < next_region || self.next_item < next_item {
            self.add(&Change::Skip {
                next_region,
                next_item,
            })?;
        }
        self.next_region = next_region;
        self.next_item = next_item;
        Ok(())
    }

    /// Adds a region, whose number is not below the next one.
    #[tactic(auto, using(crate::proofs::Writing::row_added))]
    fn add_region(&mut self, row: &RegionRow) -> Result<(), NoMemory>
        requires own { IsOwnRow row.now.uid row.now.name }
        requires next { self.old.next_region ≤ region_number row.now }
        requires end { region_number row.now < number_end }
        ensures added { OnOk result (Adds self.old self.new
            (words.skip_to self.old.next_region self.old.next_item (region_number row.now) self.old.next_item ++ words.creation row.now ∷ [])
            (region_number row.now + 1) self.old.next_item) }
        ensures body { OnOk result (HasBody (words.creation row.now)) }
    {
        let change = creation(self.alloc, row)?;
        self.skip_to(row.number.0, self.next_item)?;
        self.add(&change)?;
        self.next_region += 1;
        Ok(())
    }

    /// Adds an item, whose number is not below the next one.
    #[tactic(auto, using(crate::proofs::Writing::row_added))]
    fn add_item(&mut self, row: &ItemRow) -> Result<(), NoMemory>
        requires own { IsOwnRow row.now.uid row.now.name }
        requires next { self.old.next_item ≤ item_number row.now }
        requires end { item_number row.now < number_end }
        ensures added { OnOk result (Adds self.old self.new
            (words.skip_to self.old.next_region self.old.next_item self.old.next_region (item_number row.now) ++ words.allocation row.now ∷ [])
            self.old.next_region (item_number row.now + 1)) }
        ensures body { OnOk result (HasBody (words.allocation row.now)) }
    {
        let change = allocation(self.alloc, row)?;
        self.skip_to(self.next_region, row.number.0)?;
        self.add(&change)?;
        self.next_item += 1;
        Ok(())
    }
}

/// Adds regions in order of number.
fn add_regions(form: &mut Form, regions: &[RegionRow]) -> Result<(), NoMemory>
    requires own { All (λ row. IsOwnRow row.uid row.name) regions.now }
    requires rise { Rises region_number form.old.next_region regions.now }
    requires end { All (λ row. region_number row < number_end) regions.now }
    requires item { form.old.next_item ≡ 1 }
    ensures region { OnOk result (form.new.next_region ≡ next_behind region_number form.old.next_region regions.now) }
    ensures item { OnOk result (form.new.next_item ≡ 1) }
    ensures added { OnOk result ((rows : Rows) → form.new.bytes.items ++ records (words.short_regions rows form.new.next_region [])
        ≡ form.old.bytes.items ++ records (words.short_regions rows form.old.next_region regions.now)) }
    ensures bodies { OnOk result (All (λ row. HasBody (words.creation row)) regions.now) }
{
    for row in regions {
        form.add_region(row)?;
    }
    Ok(())
}

/// Adds items in order of number.
fn add_items(form: &mut Form, items: &[ItemRow]) -> Result<(), NoMemory>
    requires own { All (λ row. IsOwnRow row.uid row.name) items.now }
    requires rise { Rises item_number form.old.next_item items.now }
    requires end { All (λ row. item_number row < number_end) items.now }
    ensures region { OnOk result (form.new.next_region ≡ form.old.next_region) }
    ensures item { OnOk result (form.new.next_item ≡ next_behind item_number form.old.next_item items.now) }
    ensures added { OnOk result ((rows : Rows) → form.new.bytes.items ++ records (words.short_items rows form.new.next_region form.new.next_item [])
        ≡ form.old.bytes.items ++ records (words.short_items rows form.old.next_region form.old.next_item items.now)) }
    ensures bodies { OnOk result (All (λ row. HasBody (words.allocation row)) items.now) }
{
    for row in items {
        form.add_item(row)?;
    }
    Ok(())
}

/// The regions but the common one.
fn own_regions(rows: &Rows) -> &[RegionRow]
    requires { IsLawful rows.now }
    ensures { result.now ≡ drop 1 rows.now.regions }
{
    &rows.regions.as_slice()[1..]
}

/// The items but the common one.
fn own_items(rows: &Rows) -> &[ItemRow]
    requires { IsLawful rows.now }
    ensures { result.now ≡ drop 1 rows.now.items }
{
    &rows.items.as_slice()[1..]
}

/// The bytes of the short form of these rows.
pub(crate) fn short_form(alloc: Global, rows: &Rows) -> Result<Bytes, NoMemory>
    requires { IsLawful rows.now }
    ensures bytes { IfOk result (λ form. form ≡ short_bytes rows.now) }
    ensures restores { OnOk result (Restores rows.now (words.short rows.now)) }
{
    let mut form = Form {
        alloc,
        bytes: Vec::new(alloc),
        next_region: 1,
        next_item: 1,
    };
    add_regions(&mut form, own_regions(rows))?;
    add_items(&mut form, own_items(rows))?;
    form.skip_to(rows.next_region, rows.next_item)?;
    form.bytes.push(0)?;
    Ok(Bytes::from_vec(form.bytes))
}
