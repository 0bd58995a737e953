//! The whole text of a formula.

ghost use Rattle.std.specs.Prelude.{◌≡◌, ◌≢◌, ◌≤◌, ℤ, Option, true, List, [], ◌∷◌, ◌++◌, length, codes, IfOk, IfErr, IfSome};
ghost use Rattle.std.specs.List.{list_all, flat_map};
ghost use Rattle.std.specs.Fmt.{decimal};
ghost use Rattle.clause_base.specs.TextWords.{texts_of};
ghost use Rattle.clause_base.specs.FormulaText.{most_vars, most_clauses, is_literal_of, clause_texts, IsEnd, SpellsFormula};
ghost use Rattle.clause_base.specs.FormulaFaults.{IsFormulaFault};
ghost use Rattle.clause_base.specs.Readers.{left, next_at, word_text, are_literals, Takes, Begins, GoesOn, IsNumberFault, IsClauseFault};

use crate::clauses::Clause;
use crate::faults::FormulaFault;
use crate::formulas::Formula;
use crate::literals::Lit;
use crate::numbers::{is_number, literal, read_decimal};
use crate::words::Words;
use std::alloc::{AllocError, Global};

/// The most variables of a formula that is read.
const MAX_VARS: u32 = 1_000_000;

/// The most clauses of a formula that is read.
const MAX_CLAUSES: u32 = 4_000_000;

/// Reads a formula: `p cnf`, the number of variables, the number of clauses, and the clauses, each of which is a list of
/// literals and a `0`. Words are separated by spaces, tabs, CR and LF; lines that begin with `c` are comments. Behind
/// the last clause the text ends, or nothing is read from a word on that begins with `%`.
///
/// The first word at fault decides. `Syntax` tells the word that can't stand where it stands, or the text's length where
/// it ends too early; `TooLarge` a number of variables over 1,000,000, or one of clauses over 4,000,000.
pub fn read_formula(alloc: Global, bytes: &[u8]) -> Result<Formula, FormulaFault>
    // What is read is the formula that the text spells.
    ensures accepted { IfOk result (SpellsFormula bytes.now) }
    // What is refused has this fault first, unless memory runs out.
    ensures refused { IfErr result (λ fault. fault ≢ FormulaFault.NoMemory → IsFormulaFault bytes.now fault) }
{
    let mut words = Words::new(bytes);
    read_keyword(&mut words, b"p")?;
    read_keyword(&mut words, b"cnf")?;
    let vars = read_number(&mut words, MAX_VARS)?;
    let count = read_number(&mut words, MAX_CLAUSES)?;
    let clauses = read_clauses(alloc, &mut words, vars, count)?;
    read_end(&mut words)?;
    Ok(Formula::new(vars, clauses))
}

/// Reads this word.
fn read_keyword(words: &mut Words<'_>, keyword: &[u8]) -> Result<(), FormulaFault>
    ensures end { words.new.end ≡ words.old.end }
    ensures taken { IfOk result (λ u. Takes (left words.old) (left words.new) (keyword.now ∷ [])) }
    ensures refused { IfErr result (λ fault. fault ≡ FormulaFault.Syntax (next_at words.old.end (left words.old))) }
    ensures other { IfErr result (λ fault. Begins keyword.now (texts_of (left words.old)) → ⊥) }
{
    let Some(word) = words.next() else {
        return Err(FormulaFault::Syntax(words.end as u64));
    };
    if word.text != keyword {
        return Err(FormulaFault::Syntax(word.at as u64));
    }
    Ok(())
}

/// Reads a number up to `most`.
fn read_number(words: &mut Words<'_>, most: u32) -> Result<u32, FormulaFault>
    ensures end { words.new.end ≡ words.old.end }
    ensures most { IfOk result (λ n. n ≤ most) }
    ensures taken { IfOk result (λ n. Takes (left words.old) (left words.new) (decimal n ∷ [])) }
    ensures refused { IfErr result (IsNumberFault most words.old.end (left words.old)) }
{
    let Some(word) = words.next() else {
        return Err(FormulaFault::Syntax(words.end as u64));
    };
    match read_decimal(word.text, u64::from(most)) {
        Some(number) => Ok(number as u32),
        None if is_number(word.text) => Err(FormulaFault::TooLarge(word.at as u64)),
        None => Err(FormulaFault::Syntax(word.at as u64)),
    }
}

/// Reads as many clauses over these variables.
fn read_clauses(
    alloc: Global,
    words: &mut Words<'_>,
    vars: u32,
    count: u32,
) -> Result<Vec<Clause>, FormulaFault>
    requires { vars ≤ most_vars }
    ensures end { words.new.end ≡ words.old.end }
    ensures count { IfOk result (λ clauses. length clauses.items ≡ count) }
    ensures literals { IfOk result (λ clauses. list_all (are_literals vars) clauses.items ≡ true) }
    ensures taken { IfOk result (λ clauses. Takes (left words.old) (left words.new) (flat_map clause_texts clauses.items)) }
    ensures refused { IfErr result (IsClauseFault vars count words.old.end (left words.old)) }
{
    let mut clauses = Vec::new(alloc);
    let mut lits = Vec::new(alloc);
    while clauses.len() < count as usize {
        match read_literal(words, vars)? {
            Some(lit) => add_literal(&mut lits, lit)?,
            None => end_clause(alloc, &mut clauses, &mut lits)?,
        }
    }
    Ok(clauses)
}

/// Adds a literal to those of a clause.
fn add_literal(lits: &mut Vec<Lit>, lit: Lit) -> Result<(), AllocError>
    ensures { IfOk result (λ u. lits.new.items ≡ lits.old.items ++ (lit ∷ [])) }
{
    lits.push(lit)?;
    Ok(())
}

/// Makes a clause of the literals, and leaves none for the next one.
fn end_clause(
    alloc: Global,
    clauses: &mut Vec<Clause>,
    lits: &mut Vec<Lit>,
) -> Result<(), AllocError>
    ensures clauses { IfOk result (λ u. clauses.new.items ≡ clauses.old.items ++ (lits.old.items ∷ [])) }
    ensures lits { IfOk result (λ u. lits.new.items ≡ []) }
{
    clauses.push(Clause::new(alloc, lits.as_slice())?)?;
    lits.clear();
    Ok(())
}

/// Reads a literal of these variables, or the `0` that ends a clause.
fn read_literal(words: &mut Words<'_>, vars: u32) -> Result<Option<Lit>, FormulaFault>
    requires { vars ≤ most_vars }
    ensures end { words.new.end ≡ words.old.end }
    ensures literal { IfOk result (λ found. IfSome found (λ l. is_literal_of vars l ≡ true)) }
    ensures taken { IfOk result (λ found. Takes (left words.old) (left words.new) (word_text found ∷ [])) }
    ensures refused { IfErr result (λ fault. fault ≡ FormulaFault.Syntax (next_at words.old.end (left words.old))) }
    ensures other { IfErr result (λ fault. GoesOn vars (texts_of (left words.old)) → ⊥) }
{
    let Some(word) = words.next() else {
        return Err(FormulaFault::Syntax(words.end as u64));
    };
    if word.text == b"0".as_slice() {
        return Ok(None);
    }
    match literal(word.text, vars) {
        Some(lit) => Ok(Some(lit)),
        None => Err(FormulaFault::Syntax(word.at as u64)),
    }
}

/// Reads the end of the text, or a word from which on nothing is read.
fn read_end(words: &mut Words<'_>) -> Result<(), FormulaFault>
    ensures end { IfOk result (λ u. IsEnd (texts_of (left words.old))) }
    ensures refused { IfErr result (λ fault. fault ≡ FormulaFault.Syntax (next_at words.old.end (left words.old))) }
    ensures other { IfErr result (λ fault. IsEnd (texts_of (left words.old)) → ⊥) }
{
    match words.next() {
        Some(word) if word.text.first() != Some(&b'%') => {
            Err(FormulaFault::Syntax(word.at as u64))
        }
        _ => Ok(()),
    }
}
