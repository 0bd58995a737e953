//! The sides of the square defects that a call asks for.

ghost use Rattle.std.specs.Prelude.{◌≡◌, ◌==◌, ℕ, ◌≤◌, List, All, map, IfOk, IfSome, IfNone};
ghost use Rattle.std.specs.Fmt.{decimal};
ghost use Rattle.std.specs.List.{slice_split, AllZip};
ghost use Rattle.defect_sweep.specs.declared.sides.SideWeight.{SideWeight};
ghost use Rattle.defect_sweep.specs.Sides.{AreSides};
ghost use Rattle.probe_io.specs.Devices.{ShelfState};
ghost use Rattle.command_base.specs.Stages.{JudgesAs};
ghost use Rattle.command_inputs.specs.Stages.{sides_stage};
ghost use Rattle.defect_sweep.specs.SideTexts.{comma, size_of};
ghost use Rattle.command_inputs.specs.Sides.{IsEntrySide, SpellsEntry, SpellsSides};

use crate::numbers::read_number;
use command_base::Stop;
use command_refusals::{Refusal, WordRefusal};
use defect_sweep::{SideWeight, are_sides};
use probe_io::Name;
use std::alloc::{AllocError, Global};

/// The greatest side of a defect, in hundredths of a micron.
const MAX_SIZE: u32 = 32_768;

/// The greatest weight.
const MAX_WEIGHT: u32 = 30;

/// The sides that the word SIDES spells.
pub fn read_sides(alloc: Global, word: &Name) -> Result<Vec<SideWeight>, Stop<Refusal>>
    ensures judges { (shelf : ShelfState) → JudgesAs (λ v. v.items) (sides_stage word.now) shelf shelf result }
    ensures are { IfOk result (λ sides. AreSides sides.items) }
{
    match sides_of(alloc, word.as_str()) {
        Ok(Some(sides)) => Ok(sides),
        Ok(None) => Err(Stop::Refused(Refusal::Words(WordRefusal::BadSide))),
        Err(_) => Err(Stop::NoMemory),
    }
}

/// The sides that the word spells, or `None` where it spells none.
fn sides_of(alloc: Global, word: &str) -> Result<Option<Vec<SideWeight>>, AllocError>
    ensures found { IfOk result (λ found. IfSome found (λ sides. SpellsSides word.now sides.items)) }
    ensures none { IfOk result (λ found. IfNone found ((sides : List SideWeight) → SpellsSides word.now sides → ⊥)) }
{
    let entries = split_entries(alloc, word)?;
    let Some(sides) = read_entries(alloc, entries.as_slice())? else {
        return Ok(None);
    };
    if are_sides(sides.as_slice()) {
        Ok(Some(sides))
    } else {
        Ok(None)
    }
}

/// The entries of the word.
fn split_entries(alloc: Global, word: &str) -> Result<Vec<&str>, AllocError>
    ensures { IfOk result (λ entries. map (λ e. e.now) entries.items ≡ slice_split (λ b. b == comma) word.now) }
{
    word.split(',').collect(alloc)
}

/// The sides that the entries spell, or `None` where one of them spells none.
fn read_entries(alloc: Global, entries: &[&str]) -> Result<Option<Vec<SideWeight>>, AllocError>
    ensures found { IfOk result (λ found. IfSome found (λ sides. All IsEntrySide sides.items × AllZip SpellsEntry (map (λ e. e.now) entries.now) sides.items)) }
    ensures none { IfOk result (λ found. IfNone found ((sides : List SideWeight) → All IsEntrySide sides → AllZip SpellsEntry (map (λ e. e.now) entries.now) sides → ⊥)) }
{
    let mut sides = Vec::new(alloc);
    for entry in entries {
        let Some(side) = read_entry(entry) else {
            return Ok(None);
        };
        sides.push(side)?;
    }
    Ok(Some(sides))
}

/// The side that the entry spells, or `None` where it spells none.
fn read_entry(entry: &str) -> Option<SideWeight>
    ensures found { IfSome result (λ side. IsEntrySide side × SpellsEntry entry.now side) }
    ensures none { IfNone result ((side : SideWeight) → IsEntrySide side → SpellsEntry entry.now side → ⊥) }
{
    match entry.split_once(':') {
        None => read_size(entry, 1),
        Some((size, weight)) => read_size(size, read_number(weight, MAX_WEIGHT)?),
    }
}

/// The side of this weight whose size, in hundredths of a micron, the text spells, or `None` where it spells none.
fn read_size(text: &str, weight: u32) -> Option<SideWeight>
    requires counts { 1 ≤ weight }
    requires light { weight ≤ 30 }
    ensures found { IfSome result (λ side. IsEntrySide side × (side.weight ≡ weight) × (text.now ≡ decimal (size_of side))) }
    ensures none { IfNone result ((n : ℕ) → 1 ≤ n → n ≤ 32768 → text.now ≡ decimal n → ⊥) }
{
    let size = read_number(text, MAX_SIZE)?;
    Some(SideWeight {
        cells: 2 * size,
        weight,
    })
}
