//! The unfolding of a whole file.

ghost use Rattle.std.specs.Prelude.{◌≡◌, ◌⊎◌, map, IfOk, Err};
ghost use Rattle.std.specs.List.{All};
ghost use Rattle.cif_flatten.specs.declared.refusal.FlattenRefusal.{FlattenRefusal};
ghost use Rattle.cif_flatten.specs.declared.refusal.FlattenRefusal.TheVariants.{NoMemory};
ghost use Rattle.cif_flatten.specs.Unfolding.{drawn, marked};
ghost use Rattle.cif_flatten.specs.Faults.{IsNested};
ghost use Rattle.cif_flatten.specs.FileSize.{IsFileSize};
ghost use Rattle.cif_flatten.specs.Flattening.{IsFirstFault, IsFlattened, drawn_of, marked_of};
ghost use Rattle.cif_flatten.specs.Unrolling.{placed_of, IsPlaceable, IsIn, AreRoomy};

use crate::calls::undefined_call;
use crate::circles::recursive_symbol;
use crate::corners::is_too_fine;
use crate::flat::Flat;
use crate::placing::{least_out, placed_draws, placed_marks};
use crate::refusal::FlattenRefusal;
use crate::sizes::{Size, unfolded_size};
use crate::unfolding::{Command, unfolded};
use cif_reader::CifFile;
use std::alloc::{AllocError, Global};

/// The most calls that a file unfolds to.
const MOST_CALLS: u64 = 65_536;

/// The most that its shapes and labels weigh.
const MOST_WEIGHT: u64 = 32_768;

/// The placed shapes and labels of the file, its calls unfolded from its top, in order: by the definition `IsFlattened`.
///
/// The refusal is the file's first fault in the order of `FlattenRefusal`, by the definition `IsFirstFault`, or want of
/// memory. The call `one_flattening` says that a file has one answer, so each comes exactly where its definition holds.
pub fn flatten(alloc: Global, file: &CifFile) -> Result<Flat, FlattenRefusal>
    ensures flat { IfOk result (λ flat. IsFlattened file.now flat) }
    ensures refused { (refusal : FlattenRefusal) → result ≡ Err refusal → (refusal ≡ NoMemory) ⊎ IsFirstFault file.now refusal }
{
    if let Some(call) = undefined_call(file) {
        return Err(FlattenRefusal::Undefined(call.pos, call.symbol));
    }
    if let Some(symbol) = recursive_symbol(alloc, file)? {
        return Err(FlattenRefusal::Recursive(symbol));
    }
    let size = nested_size(alloc, file)?;
    if size.calls > MOST_CALLS {
        return Err(FlattenRefusal::TooManyCalls);
    }
    if size.weight > MOST_WEIGHT {
        return Err(FlattenRefusal::TooManyEdges);
    }
    let commands = unfolded(alloc, file, size)?;
    if let Some(pos) = least_out(&commands) {
        return Err(FlattenRefusal::OutOfRange(pos));
    }
    let flat = placed(alloc, &commands)?;
    if is_too_fine(alloc, flat.draws())? {
        return Err(FlattenRefusal::TooFine);
    }
    Ok(flat)
}

/// How much the file unfolds to.
fn nested_size(alloc: Global, file: &CifFile) -> Result<Size, AllocError>
    requires { IsNested file.now.symbols }
    ensures { IfOk result (λ size. IsFileSize file.now size) }
{
    Ok(unfolded_size(alloc, file)?.unwrap())
}

/// The placed shapes and labels of the commands.
fn placed(alloc: Global, commands: &[Command<'_>]) -> Result<Flat, AllocError>
    requires placeable { All IsPlaceable commands.now }
    requires inside { All (λ c. IsIn (placed_of c)) commands.now }
    ensures draws { IfOk result (λ flat. map drawn_of flat.draws ≡ drawn (map placed_of commands.now)) }
    ensures roomy { IfOk result (λ flat. AreRoomy flat.draws) }
    ensures marks { IfOk result (λ flat. map marked_of flat.marks ≡ marked (map placed_of commands.now)) }
{
    Ok(Flat::new(
        placed_draws(alloc, commands)?,
        placed_marks(alloc, commands)?,
    ))
}
