//! The unfolding of calls, each command in its place.

ghost use Rattle.std.specs.Prelude.{◌≡◌, ℕ, ◌+◌, ◌*◌, ◌≤◌, List, ◌++◌, map, IfOk, OnOk};
ghost use Rattle.std.specs.List.{All};
ghost use Rattle.plane_geom.specs.Placement.{steps_of, IsShiftWithin};
ghost use Rattle.cif_grammar.specs.Words.{limit};
ghost use Rattle.cif_reader.specs.File.{IsFile, AreKeptItems};
ghost use Rattle.cif_flatten.specs.Unfolding.{in_place, opened, call_count};
ghost use Rattle.cif_flatten.specs.Faults.{most_calls, most_weight};
ghost use Rattle.cif_flatten.specs.FileSize.{IsFileSize};
ghost use Rattle.cif_flatten.specs.Unrolling.{placed_of, waiting, AreAlike, IsUnrolled, IsNear, AreShallow, IsPlaceable};

use crate::sizes::Size;
use cif_reader::{CifFile, Item, What};
use plane_geom::{Place, Turn};
use std::alloc::{AllocError, Global};

/// A command in its place.
#[derive(Drop)]
pub(crate) struct Command<'a> {
    pub(crate) item: &'a Item,
    pub(crate) place: Place,
    /// How many calls it stands in.
    pub(crate) depth: u32,
}

/// What moves nothing.
const UNMOVED: Place = Place {
    turn: Turn {
        swap: false,
        neg_x: false,
        neg_y: false,
    },
    dx: 0,
    dy: 0,
};

/// The commands of the file, unfolded from its top, in order.
pub(crate) fn unfolded<'a>(
    alloc: Global,
    file: &'a CifFile,
    size: Size,
) -> Result<Vec<Command<'a>>, AllocError>
    requires size { IsFileSize file.now size }
    requires few { size.calls ≤ most_calls }
    requires light { size.weight ≤ most_weight }
    ensures unrolled { IfOk result (λ commands. IsUnrolled file.now (map placed_of commands.items)) }
    ensures near { IfOk result (λ commands. All IsPlaceable commands.items) }
{
    let mut commands = Vec::new(alloc);
    let mut pending = Vec::new(alloc);
    push_all(&mut pending, file.top(), UNMOVED, 0)?;
    while let Some(command) = pending.pop() {
        push_called(file, &mut pending, &command)?;
        commands.push(command)?;
    }
    Ok(commands)
}

/// Puts what a command opens on top of a stack of commands.
fn push_called<'a>(
    file: &'a CifFile,
    pending: &mut Vec<Command<'a>>,
    command: &Command<'a>,
) -> Result<(), AllocError>
    requires file { IsFile file.now }
    requires near { IsNear command.now }
    requires few { command.now.depth + call_count command.now.item.now.what ≤ most_calls }
    ensures opened { OnOk result (AreAlike (opened file.now.symbols (placed_of command.now) ++ waiting pending.old.items) (waiting pending.new.items)) }
    ensures shallow { OnOk result ((left : ℕ) → command.now.depth + left + call_count command.now.item.now.what ≤ most_calls → AreShallow left pending.old.items → AreShallow left pending.new.items) }
{
    let What::Call { symbol, place } = command.item.what else {
        return Ok(());
    };
    let Some(symbol) = file.symbol(symbol) else {
        return Ok(());
    };
    push_all(
        pending,
        &symbol.items,
        place.then(command.place),
        command.depth + 1,
    )
}

/// Puts the items, all in one place, on top of a stack of commands, the first one topmost.
fn push_all<'a>(
    pending: &mut Vec<Command<'a>>,
    items: &'a [Item],
    place: Place,
    depth: u32,
) -> Result<(), AllocError>
    requires kept { AreKeptItems items.now }
    requires shift { IsShiftWithin (limit * depth) place }
    ensures waiting { OnOk result (waiting pending.new.items ≡ in_place (steps_of place) depth items.now ++ waiting pending.old.items) }
    ensures shallow { OnOk result ((left : ℕ) → depth + left ≤ most_calls → AreShallow left pending.old.items → AreShallow left pending.new.items) }
{
    let mut index = items.len();
    while index > 0 {
        index -= 1;
        pending.push(Command {
            item: &items[index],
            place,
            depth,
        })?;
    }
    Ok(())
}
