//! Changes of the rows.

ghost use Rattle.std.specs.Prelude.{◌≡◌, true, None, Some, OnOk, IsTrue};
ghost use Rattle.fam_model.specs.Directory as words;
ghost use Rattle.fam_model.specs.Lawful.{is_lawful_change};
ghost use Rattle.fam_model.specs.Lists.{is_some_and};
ghost use Rattle.fam_model.specs.Rows.{region_of};
ghost use Rattle.fam_model.specs.declared.change.Change.TheVariants as change;
ghost use Rattle.fam_directory.specs.Index.{IsReserved, adds_item, adds_region, waits_for};

use crate::directory::Directory;
use crate::region::{Coming, Region, take_coming};
use crate::searching::place_there;
use fam_base::{ItemId, Mode, NoMemory, RegionId};
use fam_model::{Change, ItemRow, RegionRow};

impl Directory {
    /// Takes the memory that a change needs.
    pub fn reserve(&mut self, change: &Change) -> Result<(), NoMemory>
        requires { IsTrue (is_lawful_change self.old.rows change.now) }
        ensures rows { self.new.rows ≡ self.old.rows }
        ensures ready { OnOk result (IsReserved self.new change.now) }
    {
        match change {
            Change::CreateRegion { name, .. } => self.reserve_region(name.as_slice()),
            Change::Allocate { region, name, .. } => self.reserve_item(*region, name.as_slice()),
            _ => Ok(()),
        }
    }

    /// Takes the memory for one more region.
    fn reserve_region(&mut self, name: &[u8]) -> Result<(), NoMemory>
        ensures rows { self.new.rows ≡ self.old.rows }
        ensures ready { OnOk result (self.new.coming ≡ Some (waits_for None name.now)) }
    {
        let coming = Coming::new(self.alloc, None, name)?;
        self.coming = None;
        self.regions.reserve(1)?;
        self.names.reserve()?;
        self.coming = Some(coming);
        Ok(())
    }

    /// Takes the memory for one more item.
    fn reserve_item(&mut self, region: RegionId, name: &[u8]) -> Result<(), NoMemory>
        requires { is_some_and (region_of self.old.rows region.0) (λ row. true) ≡ true }
        ensures rows { self.new.rows ≡ self.old.rows }
        ensures ready { OnOk result (self.new.coming ≡ Some (waits_for (Some region.0) name.now)) }
    {
        let coming = Coming::new(self.alloc, Some(region), name)?;
        self.coming = None;
        self.items.reserve()?;
        let place = place_there(self.regions.as_slice(), region);
        self.regions[place].reserve()?;
        self.coming = Some(coming);
        Ok(())
    }

    /// Makes a lawful change for which memory was taken. It takes no more.
    pub fn apply(&mut self, change: &Change)
        requires lawful { IsTrue (is_lawful_change self.old.rows change.now) }
        requires reserved { IsReserved self.old change.now }
        ensures rows { self.new.rows ≡ words.after self.old.rows change.now }
    {
        match change {
            Change::CreateRegion { .. } => self.create_region(change),
            Change::DestroyRegion { region } => self.destroy_region(*region),
            Change::ResizeRegion { region, size } => self.resize_region(*region, *size),
            Change::Allocate { .. } => self.allocate(change),
            Change::Deallocate { item } => self.deallocate(*item),
            Change::SetItemMode { item, mode } => self.set_item_mode(*item, *mode),
            Change::SetRegionMode { region, mode } => self.set_region_mode(*region, *mode),
            Change::Skip {
                next_region,
                next_item,
            } => self.skip(*next_region, *next_item),
        }
    }

    /// Adds a region.
    fn create_region(&mut self, change: &Change)
        requires adds { adds_region change.now ≡ true }
        requires lawful { IsTrue (is_lawful_change self.old.rows change.now) }
        requires reserved { IsReserved self.old change.now }
        ensures rows { self.new.rows ≡ words.after self.old.rows change.now }
    {
        let Change::CreateRegion {
            region,
            uid,
            gid,
            mode,
            size,
            ..
        } = change
        else {
            return;
        };
        let coming = take_coming(self.alloc, &mut self.coming);
        self.coming = None;
        let row = RegionRow {
            number: *region,
            uid: *uid,
            gid: *gid,
            mode: *mode,
            size: *size,
            name: coming.name,
        };
        self.names.add(coming.key, region.0);
        match self.regions.push(Region::new(self.alloc, row)) {
            Ok(()) => {}
            Err(_) => {}
        }
        self.next_region = region.0 + 1;
        self.total += *size;
    }

    /// Adds an item.
    fn allocate(&mut self, change: &Change)
        requires adds { adds_item change.now ≡ true }
        requires lawful { IsTrue (is_lawful_change self.old.rows change.now) }
        requires reserved { IsReserved self.old change.now }
        ensures rows { self.new.rows ≡ words.after self.old.rows change.now }
    {
        let Change::Allocate {
            item,
            region,
            base,
            size,
            uid,
            gid,
            mode,
            ..
        } = change
        else {
            return;
        };
        let coming = take_coming(self.alloc, &mut self.coming);
        self.coming = None;
        let place = place_there(self.regions.as_slice(), *region);
        self.regions[place].add(coming.key, *item, *base, *size);
        let row = ItemRow {
            number: *item,
            region: *region,
            base: *base,
            size: *size,
            uid: *uid,
            gid: *gid,
            mode: *mode,
            name: coming.name,
        };
        self.items.push(row);
    }

    /// Takes a region and its items away.
    fn destroy_region(&mut self, number: RegionId)
        requires { IsTrue (is_lawful_change self.old.rows (change.DestroyRegion number)) }
        ensures { self.new.rows ≡ words.after self.old.rows (change.DestroyRegion number) }
    {
        self.coming = None;
        let place = place_there(self.regions.as_slice(), number);
        let region = self.regions.remove(place);
        self.names.remove(region.row.name.as_slice());
        self.total -= region.row.size;
        self.items.remove_named(&region.items, number);
    }

    /// Takes an item away.
    fn deallocate(&mut self, number: ItemId)
        requires { IsTrue (is_lawful_change self.old.rows (change.Deallocate number)) }
        ensures { self.new.rows ≡ words.after self.old.rows (change.Deallocate number) }
    {
        self.coming = None;
        let Some(row) = self.items.remove(number) else {
            return;
        };
        let place = place_there(self.regions.as_slice(), row.region);
        self.regions[place].remove(row.name.as_slice(), row.base, row.size);
    }

    /// Gives a region another size.
    fn resize_region(&mut self, number: RegionId, size: u64)
        requires { IsTrue (is_lawful_change self.old.rows (change.ResizeRegion number size)) }
        ensures { self.new.rows ≡ words.after self.old.rows (change.ResizeRegion number size) }
    {
        self.coming = None;
        let place = place_there(self.regions.as_slice(), number);
        let before = self.regions[place].row.size;
        self.regions[place].resize(size);
        self.total = self.total - before + size;
    }

    /// Gives a region another mode.
    fn set_region_mode(&mut self, number: RegionId, mode: Mode)
        requires { IsTrue (is_lawful_change self.old.rows (change.SetRegionMode number mode)) }
        ensures { self.new.rows ≡ words.after self.old.rows (change.SetRegionMode number mode) }
    {
        self.coming = None;
        let place = place_there(self.regions.as_slice(), number);
        self.regions[place].row.mode = mode;
    }

    /// Gives an item another mode.
    fn set_item_mode(&mut self, number: ItemId, mode: Mode)
        requires { IsTrue (is_lawful_change self.old.rows (change.SetItemMode number mode)) }
        ensures { self.new.rows ≡ words.after self.old.rows (change.SetItemMode number mode) }
    {
        self.coming = None;
        self.items.set_mode(number, mode);
    }

    /// Passes over numbers.
    fn skip(&mut self, next_region: u64, next_item: u64)
        requires { IsTrue (is_lawful_change self.old.rows (change.Skip next_region next_item)) }
        ensures { self.new.rows ≡ words.after self.old.rows (change.Skip next_region next_item) }
    {
        self.coming = None;
        self.next_region = next_region;
        self.items.pass(next_item);
    }
}
