//! Numbers that words spell.

ghost use Rattle.std.specs.Prelude.{◌≡◌, ℕ, ◌≤◌, IfOk, IfSome, IfNone};
ghost use Rattle.std.specs.Fmt.{decimal};
ghost use Rattle.probe_io.specs.Devices.{ShelfState};
ghost use Rattle.command_base.specs.Stages.{Judges};
ghost use Rattle.command_inputs.specs.Stages.{budget_stage};

use clause_base::read_decimal;
use command_base::Stop;
use command_refusals::{Refusal, WordRefusal};
use probe_io::Name;

/// The greatest budget of a search.
const MAX_BUDGET: u32 = 1_000_000;

/// The budget that the word BUDGET spells.
pub fn read_budget(word: &Name) -> Result<u32, Stop<Refusal>>
    ensures judges { (shelf : ShelfState) → Judges (budget_stage word.now) shelf shelf result }
    ensures some { IfOk result (λ budget. 1 ≤ budget) }
{
    match read_number(word.as_str(), MAX_BUDGET) {
        Some(budget) => Ok(budget),
        None => Err(Stop::Refused(Refusal::Words(WordRefusal::BadBudget))),
    }
}

/// The number from 1 to `most` that the text spells in plain decimal, or `None` where it spells none.
pub(crate) fn read_number(text: &str, most: u32) -> Option<u32>
    ensures found { IfSome result (λ n. (1 ≤ n) × (n ≤ most) × (text.now ≡ decimal n)) }
    ensures none { IfNone result ((n : ℕ) → 1 ≤ n → n ≤ most → text.now ≡ decimal n → ⊥) }
{
    let number = read_decimal(text.as_bytes(), most as u64)?;
    if number == 0 {
        return None;
    }
    Some(number as u32)
}
