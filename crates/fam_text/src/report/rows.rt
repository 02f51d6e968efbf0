//! The directory before the first event as text.

ghost use Rattle.std.specs.Prelude.{◌≡◌, ◌==◌, ◌++◌, ◌∷◌, [], OnOk, filter, if◌then◌else◌, map, not};
ghost use Rattle.fam_model.specs.ReportText.{item_text, opening_lines, region_text};
ghost use Rattle.fam_model.specs.Rows.{item_number, region_number};
ghost use Rattle.fam_model.specs.Words.{text_of};

use fam_model::{ItemRow, RegionRow, Rows};
use fam_script::printing::{push_mode, push_text};
use std::alloc::AllocError;

/// Appends a region.
pub fn push_region(text: &mut Vec<u8>, row: &RegionRow) -> Result<(), AllocError>
    ensures { OnOk result (text.new.items ≡ text.old.items ++ region_text row.now) }
{
    push!(text, "region {} {} {}", row.number.0, row.uid, row.gid)?;
    push_mode(text, row.mode)?;
    push!(text, " {} ", row.size)?;
    text.extend_from_slice(row.name.as_slice())?;
    Ok(())
}

/// Appends an item.
pub fn push_item(text: &mut Vec<u8>, row: &ItemRow) -> Result<(), AllocError>
    ensures { OnOk result (text.new.items ≡ text.old.items ++ item_text row.now) }
{
    push!(
        text,
        "item {} {} {} {}",
        row.number.0,
        row.region.0,
        row.base,
        row.size
    )?;
    push!(text, " {} {}", row.uid, row.gid)?;
    push_mode(text, row.mode)?;
    push_text(text, " ")?;
    text.extend_from_slice(row.name.as_slice())?;
    Ok(())
}

/// Appends the line of a region; nothing for the region that is always there.
#[tactic(auto, using(crate::proofs::Joined::texts))]
fn push_shown_region(text: &mut Vec<u8>, row: &RegionRow) -> Result<(), AllocError>
    ensures { OnOk result (text.new.items ≡ text.old.items ++ (if region_number row.now == 0 then [] else region_text row.now ++ 10 ∷ [])) }
{
    if row.number.0 == 0 {
        return Ok(());
    }
    push_region(text, row)?;
    push_text(text, "\n")?;
    Ok(())
}

/// Appends the line of an item; nothing for the item that is always there.
#[tactic(auto, using(crate::proofs::Joined::texts))]
fn push_shown_item(text: &mut Vec<u8>, row: &ItemRow) -> Result<(), AllocError>
    ensures { OnOk result (text.new.items ≡ text.old.items ++ (if item_number row.now == 0 then [] else item_text row.now ++ 10 ∷ [])) }
{
    if row.number.0 == 0 {
        return Ok(());
    }
    push_item(text, row)?;
    push_text(text, "\n")?;
    Ok(())
}

fn push_regions(text: &mut Vec<u8>, rows: &[RegionRow]) -> Result<(), AllocError>
    ensures { OnOk result (text.new.items ≡ text.old.items ++ text_of (map region_text (filter (λ row. not (region_number row == 0)) rows.now))) }
{
    for row in rows {
        push_shown_region(text, row)?;
    }
    Ok(())
}

fn push_items(text: &mut Vec<u8>, rows: &[ItemRow]) -> Result<(), AllocError>
    ensures { OnOk result (text.new.items ≡ text.old.items ++ text_of (map item_text (filter (λ row. not (item_number row == 0)) rows.now))) }
{
    for row in rows {
        push_shown_item(text, row)?;
    }
    Ok(())
}

/// Appends the next numbers, and a line for each region and each item with a number above 0.
pub fn push_opening(text: &mut Vec<u8>, rows: &Rows) -> Result<(), AllocError>
    ensures { OnOk result (text.new.items ≡ text.old.items ++ text_of (opening_lines rows.now)) }
{
    push!(text, "opening {} {}", rows.next_region, rows.next_item)?;
    push_text(text, "\n")?;
    push_regions(text, rows.regions.as_slice())?;
    push_items(text, rows.items.as_slice())?;
    Ok(())
}
