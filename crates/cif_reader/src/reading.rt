//! The whole text.

ghost use Rattle.std.specs.Prelude.{◌≡◌, ◌⊎◌, ◌≤◌, IfOk, IfErr, is_some, length, option_map};
ghost use Rattle.cif_grammar.specs.Seen.{seen};
ghost use Rattle.cif_reader.specs.Faults.{Refuses, end_fault as end_fault_lem, is_delete as is_delete_lem};
ghost use Rattle.cif_reader.specs.Reading.{Accepts};
ghost use Rattle.cif_reader.specs.Built.{opening_of, standing_at};

use crate::builder::Builder;
use crate::file::CifFile;
use crate::refusal::{CifRefusal, Feature};
use cif_grammar::{Command, after_blanks, after_gaps, next_command};
use std::alloc::{AllocError, Global};

/// Whether any blanks and a `D` stand first.
fn is_delete(bytes: &[u8]) -> bool
    ensures { result ≡ is_delete_lem bytes.now }
{
    matches!(after_blanks(bytes), [b'D', ..])
}

/// What is wrong with what stands behind the last command, if it is no `E` that may stand there.
fn end_fault(inside: bool, pos: u64, bytes: &[u8]) -> Option<CifRefusal>
    ensures { result ≡ end_fault_lem inside pos bytes.now }
{
    let Some((first, rest)) = bytes.split_first() else {
        return Some(CifRefusal::Syntax(pos));
    };
    if *first == b'E' && !inside {
        None
    } else if *first == b'R' {
        Some(CifRefusal::Unsupported(pos, Feature::Round))
    } else if *first == b'D' && is_delete(rest) {
        Some(CifRefusal::Unsupported(pos, Feature::DefDelete))
    } else {
        Some(CifRefusal::Syntax(pos))
    }
}

/// The next command, if it may stand here, and what stands behind it.
#[tactic(auto, unfolding(crate::specs::Built::standing_at))]
fn next_standing<'a>(
    alloc: Global,
    builder: &Builder,
    total: usize,
    bytes: &'a [u8],
) -> Result<Option<(Command<'a>, &'a [u8])>, AllocError>
    ensures { IfOk result (λ found. length bytes.now ≤ total → option_map (λ x. (seen x.0, x.1.now)) found ≡ standing_at (is_some (opening_of builder.now.definition)) total bytes.now) }
{
    let Some((command, rest)) = next_command(alloc, total, bytes)? else {
        return Ok(None);
    };
    if builder.may_stand(&command) {
        Ok(Some((command, rest)))
    } else {
        Ok(None)
    }
}

/// Reads a whole CIF text into a file in mask units, or gives the first fault of the text.
///
/// By the definition `Accepts` the text spells commands without fault, and the file holds what they say. By the
/// definition `Refuses` the refusal is that of the first command at fault, or of what stands where no further command
/// is spelled. The call `one_answer` says that a text has one answer, so each comes exactly where its definition holds.
pub fn read(alloc: Global, bytes: &[u8]) -> Result<CifFile, CifRefusal>
    ensures accepted { IfOk result (λ file. Accepts bytes.now file) }
    ensures refused { IfErr result (λ fault. (fault ≡ CifRefusal.NoMemory) ⊎ Refuses bytes.now fault) }
{
    let mut builder = Builder::new(alloc);
    let mut rest = after_gaps(bytes);
    while let Some((command, next)) = next_standing(alloc, &builder, bytes.len(), rest)? {
        let pos = (bytes.len() - rest.len()) as u64;
        if let Some(fault) = builder.judge(pos, &command) {
            return Err(fault);
        }
        builder.add(alloc, pos, command)?;
        rest = next;
    }
    let pos = (bytes.len() - rest.len()) as u64;
    match end_fault(builder.is_inside(), pos, rest) {
        Some(fault) => Err(fault),
        None => Ok(builder.file),
    }
}
