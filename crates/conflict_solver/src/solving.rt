//! The search for values that solve a formula, or for a proof that there are none.

ghost use Rattle.std.specs.Prelude.{◌≡◌, ◌≢◌, ℕ, ◌+◌, ◌<◌, ◌≤◌, ◌^◌, true, Some, None, [], length, take, Ok, Err, OnOk, OnErr, IfOk, IfSome, IfNone};
ghost use Rattle.probe_io.specs.Causes.{Rose};
ghost use Rattle.clause_base.specs.Formulas.{Clauses, IsFormula};
ghost use Rattle.proof_sinks.specs.Calls.{KeepsTold};
ghost use Rattle.search_trail.specs.Trails.{IsSearch};
ghost use Rattle.search_trail.specs.Learning.{IsLearnt, IsAsserting, IsJump};
ghost use Rattle.clause_watches.specs.Watching.{AreWatched, IsConflict};
ghost use Rattle.conflict_solver.specs.Deriving.{AreGiven, IsProofSoFar};
ghost use Rattle.conflict_solver.specs.Answering.{IsAnswered};
ghost use Rattle.conflict_solver.specs.Setting.{AreSet, AreTrue, IsSettled, HasDecided};
ghost use Rattle.conflict_solver.specs.Running.{KeepsSink, IsGiving, IsUnderWay, work_left};
ghost use Rattle.conflict_solver.specs.Joining.{HasJoined};

use crate::joining::{give, learn};
use crate::levels::{back_to, is_ground};
use crate::order::Order;
use crate::restarts::Restarts;
use crate::saying::{say_derived, say_given};
use crate::values::{is_true_in, pick, values_of};
use crate::verdict::{SolveFault, Verdict};
use clause_base::{Formula, Lit};
use clause_watches::Watches;
use proof_sinks::ProofSink;
use search_trail::{Trail, analyse};
use std::alloc::{AllocError, Global};

/// A search: its trail, where clauses are watched, and how many more lines it may say.
#[derive(Debug, Drop)]
struct Solver {
    trail: Trail,
    watches: Watches,
    order: Order,
    restarts: Restarts,
    left: u32,
}

/// Finds values that solve the formula, or derives the empty clause from it. It says the formula's clauses to the sink,
/// in order, and then each clause that it derives with its hints. At most `budget` of these aren't empty: a search
/// that wants more ends with `Undecided`. It answers `Sink` only where the sink's count of faults rose, which no other
/// answer of a strict sink raises, and `NoMemory` only where no memory was found, here or by the sink. After each of
/// these two some first clauses of the formula were said, or all of them and some derived lines.
pub fn solve<P: ProofSink>(
    alloc: Global,
    formula: &Formula,
    budget: u32,
    sink: &mut P,
) -> Result<Verdict, SolveFault>
    requires some { 0 < budget }
    requires live { P.live sink.old ≡ true }
    requires unsaid { P.said sink.old ≡ [] }
    ensures answered { IfOk result (IsAnswered formula.now budget (P.said sink.new)) }
    ensures so_far { OnErr result (IsProofSoFar formula.now budget (P.said sink.new)) }
    ensures decided { 3 ^ formula.now.vars ≤ budget → OnOk result (result ≢ Ok Verdict.Undecided) }
    ensures live { OnOk result (P.live sink.new ≡ true) }
    ensures whole { result ≢ Err SolveFault.Sink → P.whole sink.new ≡ P.whole sink.old }
    ensures lender { P.lender sink.new ≡ P.lender sink.old }
    ensures before { KeepsTold (P.before sink.old) (P.before sink.new) }
    ensures cause { result ≡ Err SolveFault.Sink → Rose (P.faults sink.old) (P.faults sink.new) }
    ensures later { P.faults sink.old ≤ P.faults sink.new }
    ensures quiet { P.strict ≡ true → result ≢ Err SolveFault.Sink → P.faults sink.new ≡ P.faults sink.old }
{
    let mut solver = begin(alloc, formula.vars(), budget)?;
    match give_all(&mut solver, formula, sink)? {
        Some(conflict) => refute(alloc, &solver, conflict, sink),
        None => search(alloc, &mut solver, formula, sink),
    }
}

/// A search that knows no clause.
fn begin(alloc: Global, vars: u32, budget: u32) -> Result<Solver, AllocError>
    ensures giving { IfOk result (λ solver. (formula : Clauses) → formula.vars ≡ vars → IsGiving formula 0 [] solver.trail solver.watches None) }
    ensures left { IfOk result (λ solver. solver.left ≡ budget) }
{
    Ok(Solver {
        trail: Trail::new(alloc, vars)?,
        watches: Watches::new(alloc, vars)?,
        order: Order::new(alloc, vars)?,
        restarts: Restarts::new(),
        left: budget,
    })
}

/// Says all clauses of the formula. The answer is the number of one that is false already.
fn give_all<P: ProofSink>(
    solver: &mut Solver,
    formula: &Formula,
    sink: &mut P,
) -> Result<Option<usize>, SolveFault>
    requires live { P.live sink.old ≡ true }
    requires giving { IsGiving formula.now 0 (P.said sink.old) solver.old.trail solver.old.watches None }
    ensures given { IfOk result (λ conflict. IsGiving formula.now (length formula.now.clauses) (P.said sink.new) solver.new.trail solver.new.watches conflict) }
    ensures formula { OnOk result (IsFormula formula.now.vars formula.now.clauses) }
    ensures left { solver.new.left ≡ solver.old.left }
    ensures front { OnErr result (AreGiven formula.now (P.said sink.new)) }
    ensures live { OnOk result (P.live sink.new ≡ true) }
    ensures sink { KeepsSink P.strict (P.faults sink.old) (P.faults sink.new) (P.whole sink.old) (P.whole sink.new)
        (P.lender sink.old) (P.lender sink.new) (P.before sink.old) (P.before sink.new) result }
{
    let mut conflict = None;
    for clause in formula.clauses() {
        say_given(sink, clause.as_slice())?;
        conflict = give(
            &mut solver.trail,
            &mut solver.watches,
            clause.as_slice(),
            conflict,
        )?;
    }
    Ok(conflict)
}

/// Derives the empty clause from a false one before a level begins.
fn refute<P: ProofSink>(
    alloc: Global,
    solver: &Solver,
    conflict: usize,
    sink: &mut P,
) -> Result<Verdict, SolveFault>
    requires ground { solver.now.trail.starts ≡ [] }
    requires conflict { IsConflict solver.now.trail conflict }
    requires live { P.live sink.old ≡ true }
    requires few { length (P.said sink.old) < 2 ^ 61 }
    ensures refuted { (formula : Clauses) (budget : ℕ) → IsUnderWay formula budget solver.now.left (P.said sink.old) solver.now.trail
        → IfOk result (IsAnswered formula budget (P.said sink.new)) }
    ensures decided { IfOk result (λ verdict. verdict ≡ Verdict.Refuted) }
    ensures so_far { (formula : Clauses) (budget : ℕ) → IsUnderWay formula budget solver.now.left (P.said sink.old) solver.now.trail
        → OnErr result (IsProofSoFar formula budget (P.said sink.new)) }
    ensures live { OnOk result (P.live sink.new ≡ true) }
    ensures sink { KeepsSink P.strict (P.faults sink.old) (P.faults sink.new) (P.whole sink.old) (P.whole sink.new)
        (P.lender sink.old) (P.lender sink.new) (P.before sink.old) (P.before sink.new) result }
{
    let learnt = analyse(alloc, &solver.trail, conflict)?;
    say_derived(sink, learnt.lits.as_slice(), learnt.hints.as_slice())?;
    Ok(Verdict::Refuted)
}

/// Goes on until there is a verdict on the formula, all of whose clauses were given.
fn search<P: ProofSink>(
    alloc: Global,
    solver: &mut Solver,
    _formula: &Formula,
    sink: &mut P,
) -> Result<Verdict, SolveFault>
    requires formula { IsFormula _formula.now.vars _formula.now.clauses }
    requires live { P.live sink.old ≡ true }
    requires kept { AreWatched solver.old.trail solver.old.watches }
    requires few_lines { solver.old.left < 2 ^ 32 }
    requires under_way { IsUnderWay _formula.now solver.old.left solver.old.left (P.said sink.old) solver.old.trail }
    ensures answered { IfOk result (IsAnswered _formula.now solver.old.left (P.said sink.new)) }
    ensures so_far { OnErr result (IsProofSoFar _formula.now solver.old.left (P.said sink.new)) }
    ensures live { OnOk result (P.live sink.new ≡ true) }
    ensures sink { KeepsSink P.strict (P.faults sink.old) (P.faults sink.new) (P.whole sink.old) (P.whole sink.new)
        (P.lender sink.old) (P.lender sink.new) (P.before sink.old) (P.before sink.new) result }
{
    loop {
        if let Some(verdict) = turn(alloc, solver, sink)? {
            return Ok(verdict);
        }
    }
}

/// Propagates, and then learns from a conflict or decides a variable. There is a verdict where neither can be done.
fn turn<P: ProofSink>(
    alloc: Global,
    solver: &mut Solver,
    sink: &mut P,
) -> Result<Option<Verdict>, SolveFault>
    requires live { P.live sink.old ≡ true }
    requires few { length (P.said sink.old) < 2 ^ 61 }
    requires small { solver.old.trail.vars < 2 ^ 31 }
    requires kept { AreWatched solver.old.trail solver.old.watches }
    ensures kept { IfOk result (λ found. IfNone found (AreWatched solver.new.trail solver.new.watches)) }
    ensures under_way { (formula : Clauses) (budget : ℕ) → IsUnderWay formula budget solver.old.left (P.said sink.old) solver.old.trail
        → IfOk result (λ found. IfNone found (IsUnderWay formula budget solver.new.left (P.said sink.new) solver.new.trail)) }
    ensures answered { (formula : Clauses) (budget : ℕ) → IsUnderWay formula budget solver.old.left (P.said sink.old) solver.old.trail
        → IfOk result (λ found. IfSome found (IsAnswered formula budget (P.said sink.new))) }
    ensures so_far { (formula : Clauses) (budget : ℕ) → IsUnderWay formula budget solver.old.left (P.said sink.old) solver.old.trail
        → OnErr result (IsProofSoFar formula budget (P.said sink.new)) }
    ensures less { IfOk result (λ found. IfNone found (work_left solver.new.left solver.new.trail < work_left solver.old.left solver.old.trail)) }
    ensures live { OnOk result (P.live sink.new ≡ true) }
    ensures sink { KeepsSink P.strict (P.faults sink.old) (P.faults sink.new) (P.whole sink.old) (P.whole sink.new)
        (P.lender sink.old) (P.lender sink.new) (P.before sink.old) (P.before sink.new) result }
{
    let conflict = solver.watches.propagate(&mut solver.trail)?;
    let is_ground = is_ground(&solver.trail);
    let Some(number) = conflict else {
        return Ok(decide(alloc, solver)?);
    };
    if is_ground {
        return Ok(Some(refute(alloc, solver, number, sink)?));
    }
    if solver.left == 0 {
        return Ok(Some(Verdict::Undecided));
    }
    derive(alloc, solver, number, sink)?;
    Ok(None)
}

/// Decides a variable that isn't set. There is a verdict where each is set, or no line is left.
fn decide(alloc: Global, solver: &mut Solver) -> Result<Option<Verdict>, AllocError>
    requires small { solver.old.trail.vars < 2 ^ 31 }
    requires kept { AreWatched solver.old.trail solver.old.watches }
    requires done { solver.old.watches.head ≡ length solver.old.trail.lits }
    ensures verdict { IfOk result (λ found. IfSome found (IsSettled solver.old.trail solver.old.left)) }
    ensures decided { IfOk result (λ found. IfNone found (HasDecided solver.old.trail solver.new.trail)) }
    ensures watches { solver.new.watches ≡ solver.old.watches }
    ensures left { solver.new.left ≡ solver.old.left }
{
    let Some(lit) = pick(&mut solver.order, &solver.trail) else {
        all_true(&solver.trail, &solver.watches);
        return Ok(Some(Verdict::Values(values_of(alloc, &solver.trail)?)));
    };
    if solver.left == 0 {
        return Ok(Some(Verdict::Undecided));
    }
    solver.trail.decide(lit)?;
    Ok(None)
}

/// Each clause has a true literal, where each variable is set and nothing is left to propagate.
fn all_true(trail: &Trail, watches: &Watches)
    requires set { AreSet trail.now trail.now.vars }
    requires kept { AreWatched trail.now watches.now }
    requires done { watches.now.head ≡ length trail.now.lits }
    ensures { AreTrue trail.now (length trail.now.clauses) }
{
    for place in 0..trail.clauses() {
        if !is_true_in(trail, trail.clause(place + 1)) {
            unreachable!();
        }
    }
}

/// Says what a conflict teaches and goes on from there.
fn derive<P: ProofSink>(
    alloc: Global,
    solver: &mut Solver,
    conflict: usize,
    sink: &mut P,
) -> Result<(), SolveFault>
    requires above { 0 < length solver.old.trail.starts }
    requires left { 0 < solver.old.left }
    requires search { IsSearch solver.old.trail }
    requires kept { AreWatched solver.old.trail solver.old.watches }
    requires conflict { IsConflict solver.old.trail conflict }
    requires live { P.live sink.old ≡ true }
    requires few { length (P.said sink.old) < 2 ^ 61 }
    ensures kept { OnOk result (AreWatched solver.new.trail solver.new.watches) }
    ensures under_way { (formula : Clauses) (budget : ℕ) → IsUnderWay formula budget solver.old.left (P.said sink.old) solver.old.trail
        → OnOk result (IsUnderWay formula budget solver.new.left (P.said sink.new) solver.new.trail) }
    ensures so_far { (formula : Clauses) (budget : ℕ) → IsUnderWay formula budget solver.old.left (P.said sink.old) solver.old.trail
        → OnErr result (IsProofSoFar formula budget (P.said sink.new)) }
    ensures left { OnOk result (solver.new.left + 1 ≡ solver.old.left) }
    ensures vars { OnOk result (solver.new.trail.vars ≡ solver.old.trail.vars) }
    ensures live { OnOk result (P.live sink.new ≡ true) }
    ensures sink { KeepsSink P.strict (P.faults sink.old) (P.faults sink.new) (P.whole sink.old) (P.whole sink.new)
        (P.lender sink.old) (P.lender sink.new) (P.before sink.old) (P.before sink.new) result }
{
    let learnt = analyse(alloc, &solver.trail, conflict)?;
    let lits = learnt.lits.as_slice();
    let hints = learnt.hints.as_slice();
    say_derived(sink, lits, hints)?;
    go_on(solver, lits, hints, learnt.level)?;
    Ok(())
}

/// Takes up the clause that was learnt, and goes back to where it makes a literal true, or begins anew.
fn go_on(solver: &mut Solver, lits: &[Lit], hints: &[u64], level: usize) -> Result<(), AllocError>
    requires above { 0 < length solver.old.trail.starts }
    requires left { 0 < solver.old.left }
    requires kept { AreWatched solver.old.trail solver.old.watches }
    requires learnt { IsLearnt solver.old.trail lits.now }
    requires asserting { IsAsserting solver.old.trail lits.now }
    requires jump { IsJump solver.old.trail lits.now level }
    ensures joined { OnOk result (HasJoined solver.old.trail solver.new.trail lits.now) }
    ensures kept { OnOk result (AreWatched solver.new.trail solver.new.watches) }
    ensures left { OnOk result (solver.new.left + 1 ≡ solver.old.left) }
{
    raise_scores(&mut solver.order, &solver.trail, hints);
    release_above(&mut solver.order, &solver.trail, level)?;
    learn(&mut solver.trail, &mut solver.watches, lits, level)?;
    solver.left -= 1;
    if solver.restarts.is_due() {
        release_above(&mut solver.order, &solver.trail, 0)?;
        back_to(&mut solver.trail, &mut solver.watches, 0);
    }
    Ok(())
}

/// Raises the scores of the variables on which a conflict rests.
fn raise_scores(order: &mut Order, trail: &Trail, hints: &[u64]) {
    order.begin_conflict();
    for hint in hints {
        let number = *hint as usize;
        if number > 0 && number <= trail.clauses() {
            order.raise(trail.clause(number));
        }
    }
}

/// Puts back the variables that are set above this level.
fn release_above(order: &mut Order, trail: &Trail, level: usize) -> Result<(), AllocError> {
    let Some(start) = trail.starts().get(level).copied() else {
        return Ok(());
    };
    match trail.lits().get(start..) {
        Some(lits) => order.release(lits),
        None => Ok(()),
    }
}
