//! What makes models of models.
//!
//! A model of a shrinking question satisfies more groups than were asked about, and more still after some flips. The set of
//! all groups that it satisfies then is often the next seed.
//!
//! One that leaves out one group of the set that is shrunk is turned as well, one variable at a time, so that it leaves out
//! another group in its place: each assignment that comes of that answers the question of shrinking about that group.
//!
//! On a large problem the assignment that was remembered last is repaired for a seed that nothing known answers: some flips
//! often make it satisfy the seed, at the cost of the clauses that have their variables. Which groups it leaves out then is
//! known as surely as before. On some problems hardly any repair succeeds; there most seeds go by untried.
//!
//! How much flips, turns and repairs may look at is bounded by how many questions the oracle within was asked.
ghost use Rattle.std.specs.Prelude.{◌≡◌, true, All, None, IfOk, IfSome};
ghost use Rattle.gm_base.specs.Problem.{Problem};
ghost use Rattle.gm_base.specs.Evidence.{is_witness};
ghost use Rattle.model_flips.specs.Rotation.{IsListing, Satisfies};
ghost use Rattle.known_sets.specs.Entries.{IsSatisfied};
ghost use Rattle.known_sets.specs.Making.{MakesModelsOf};

use crate::arena::set_of;
use crate::critical::CriticalGroups;
use crate::marks::{Marks, is_marked};
use crate::patience::Patience;
use crate::refuted::RefutedSets;
use crate::satisfied::SatisfiedSets;
use crate::showing::show_all;
use crate::turning::turn_all;
use gm_base::{Assign, GroupSet, Problem};
use model_flips::{Flips, Rotation, Turned, tested};
use std::alloc::{AllocError, Global};

// What a question costs the oracle within at least, in looks of the flips: so many, and so many for each literal of the
// problem (measured, see docs/DECISIONS.md).
pub(crate) const LOOKS_A_QUESTION: u64 = 10_000;

const LOOKS_A_LITERAL: u64 = 2;

// A problem of fewer literals is not worth a repair: the oracle within answers sooner (measured, see docs/DECISIONS.md).
const LARGE: usize = 4_000;

/// Makes models of a problem.
#[derive(Drop)]
pub struct ModelMaker {
    problem: Problem,
    // How many literals the problem has.
    literals: usize,
    // Both are made when they are needed first.
    flips: Option<Flips>,
    rotation: Option<Rotation>,
    // What was looked at for turns and for repairs, in clauses and in words of assignments.
    turns: u64,
    repairs: u64,
    // Which repairs are tried.
    patience: Patience,
    // How many questions the oracle within has answered.
    answers: u64,
    // No group is marked between repairs.
    marks: Marks,
}

impl ModelMaker {
    /// Nothing was made or looked at.
    pub fn new(alloc: Global, problem: &Problem) -> Result<ModelMaker, AllocError>
        ensures { IfOk result (MakesModelsOf problem.now) }
    {
        Ok(ModelMaker {
            problem: problem.copy()?,
            literals: literals_of(problem),
            flips: None,
            rotation: None,
            turns: 0,
            repairs: 0,
            patience: Patience::new(),
            answers: 0,
            marks: Marks::new(alloc, problem.groups()),
        })
    }

    /// How many groups the problem has.
    pub fn groups(&self) -> u32
        ensures { result ≡ self.now.problem.groups }
    {
        self.problem.groups()
    }

    /// Counts a question that the oracle within has answered.
    pub fn count_answer(&mut self)
        ensures { (p : Problem) → MakesModelsOf p self.old → MakesModelsOf p self.new }
    {
        self.answers = self.answers.saturating_add(1);
    }

    /// What the questions so far have cost the oracle within at least.
    fn most_looks(&self) -> u64 {
        let each = LOOKS_A_LITERAL
            .saturating_mul(self.literals as u64)
            .saturating_add(LOOKS_A_QUESTION);
        self.answers.saturating_mul(each)
    }

    /// Flips variables of the assignment of this number, so that it satisfies the set. It isn't tried on small
    /// problems, nor where repairs have cost more so far than the questions have, and seldom where many more failed than
    /// succeeded.
    pub fn repaired(
        &mut self,
        alloc: Global,
        satisfied: &SatisfiedSets,
        number: usize,
        set: &GroupSet,
    ) -> Result<Option<Turned>, AllocError>
        ensures right { (p : Problem) → MakesModelsOf p self.old → MakesModelsOf p self.new }
        ensures found { (p : Problem) → MakesModelsOf p self.old → All (IsSatisfied p) satisfied.now → IfOk result (λ found. IfSome found (λ turned. Satisfies p turned.out turned.assign)) }
    {
        let most = self.most_looks();
        if self.literals < LARGE || self.repairs > most {
            return Ok(None);
        }
        if !self.patience.is_due() {
            return Ok(None);
        }
        let rotation = taken(alloc, &mut self.rotation, &self.problem)?;
        self.marks.set(set.as_slice());
        let found = repair_one(
            alloc,
            &rotation,
            &self.problem,
            satisfied,
            number,
            self.marks.as_slice(),
            &mut self.repairs,
            most,
        );
        self.marks.clear(set.as_slice());
        self.rotation = Some(rotation);
        self.patience.hear(matches!(&found, Ok(Some(_))));
        found
    }

    /// Counts a repair that has answered a question: one less was asked, and what that costs at least is not counted.
    pub fn count_repair(&mut self)
        ensures { (p : Problem) → MakesModelsOf p self.old → MakesModelsOf p self.new }
    {
        self.repairs = self.repairs.saturating_sub(LOOKS_A_QUESTION);
    }

    /// Makes an assignment satisfy more groups, and says which ones it leaves out then. Nothing where an assignment is
    /// known that leaves out the same ones, or where flipping has cost more so far than the questions have.
    pub fn grown(
        &mut self,
        alloc: Global,
        refuted: &mut RefutedSets,
        satisfied: &SatisfiedSets,
        assign: &Assign,
    ) -> Result<Option<Turned>, AllocError>
        ensures right { (p : Problem) → MakesModelsOf p self.old → MakesModelsOf p self.new }
        ensures refuted { refuted.new ≡ refuted.old }
        ensures grown { (p : Problem) → MakesModelsOf p self.old → IfOk result (λ found. IfSome found (λ turned. Satisfies p turned.out turned.assign)) }
    {
        let most = self.most_looks();
        let mut flips = lent(alloc, &mut self.flips, &self.problem)?;
        let grown = grown_by(alloc, &mut flips, most, refuted, satisfied, assign);
        self.flips = Some(flips);
        grown
    }

    /// Turns the assignment of this number, and what comes of it, so that it leaves out others of the marked groups. It goes
    /// on for as long as turns have not cost more so far than the questions have.
    pub fn turn_from(
        &mut self,
        alloc: Global,
        shrinking: &[bool],
        satisfied: &mut SatisfiedSets,
        first: usize,
    ) -> Result<(), AllocError>
        ensures right { (p : Problem) → MakesModelsOf p self.old → MakesModelsOf p self.new }
        ensures satisfied { (p : Problem) → MakesModelsOf p self.old → All (IsSatisfied p) satisfied.old → All (IsSatisfied p) satisfied.new }
    {
        let rotation = taken(alloc, &mut self.rotation, &self.problem)?;
        let most = self.most_looks();
        let turned = turn_all(
            alloc,
            &rotation,
            &self.problem,
            shrinking,
            satisfied,
            first,
            &mut self.turns,
            most,
        );
        self.rotation = Some(rotation);
        turned
    }

    /// An assignment, where it satisfies the background and a set. This is tested of each of their clauses.
    pub fn tested(&self, set: &GroupSet, assign: Assign) -> Option<Assign>
        ensures { (p : Problem) → MakesModelsOf p self.now → IfSome result (λ shown. is_witness p set.now shown ≡ true) }
    {
        tested(&self.problem, set, assign)
    }

    /// Shows more groups critical from those that are known from this number on. It goes on as turns do.
    pub fn show_from(
        &mut self,
        alloc: Global,
        critical: &mut CriticalGroups,
        first: usize,
    ) -> Result<(), AllocError>
        ensures { (p : Problem) → MakesModelsOf p self.old → MakesModelsOf p self.new }
    {
        let rotation = taken(alloc, &mut self.rotation, &self.problem)?;
        let most = self.most_looks();
        let shown = show_all(
            alloc,
            &rotation,
            &self.problem,
            critical,
            first,
            &mut self.turns,
            most,
        );
        self.rotation = Some(rotation);
        shown
    }
}

fn literals_of(problem: &Problem) -> usize {
    let mut count = 0usize;
    for at in 0..problem.len() {
        count = count.saturating_add(problem.clause(at).lits.len());
    }
    count
}

// The rotation that is kept, or a new one.
fn taken(
    alloc: Global,
    kept: &mut Option<Rotation>,
    problem: &Problem,
) -> Result<Rotation, AllocError>
    ensures whole { IfSome kept.old (IsListing problem.now.clauses) → IfOk result (IsListing problem.now.clauses) }
    ensures none { kept.new ≡ None }
{
    match kept.take() {
        Some(rotation) => Ok(rotation),
        None => Rotation::new(alloc, problem),
    }
}

// The flips that are kept, or new ones.
fn lent(alloc: Global, kept: &mut Option<Flips>, problem: &Problem) -> Result<Flips, AllocError>
    ensures same { IfSome kept.old (λ before. before ≡ problem.now) → IfOk result (λ flips. flips ≡ problem.now) }
    ensures none { kept.new ≡ None }
{
    match kept.take() {
        Some(flips) => Ok(flips),
        None => Flips::new(alloc, problem),
    }
}

// What comes of repairing the assignment of this number, so that it satisfies the marked groups.
fn repair_one(
    alloc: Global,
    rotation: &Rotation,
    problem: &Problem,
    satisfied: &SatisfiedSets,
    number: usize,
    marks: &[bool],
    looks: &mut u64,
    most: u64,
) -> Result<Option<Turned>, AllocError>
    ensures { IsListing problem.now.clauses rotation.now → All (IsSatisfied problem.now) satisfied.now → IfOk result (λ found. IfSome found (λ turned. Satisfies problem.now turned.out turned.assign)) }
{
    let Some(lent) = satisfied.get(number) else {
        return Ok(None);
    };
    let Some(out) = set_of(alloc, lent.set) else {
        return Ok(None);
    };
    let assign = lent.evidence.copy()?;
    if assign.len() != problem.vars() as usize {
        return Ok(None);
    }
    rotation.repaired(alloc, problem, marks, &out, &assign, looks, most)
}

// What comes of making an assignment satisfy more groups, where no more than so much was looked at before.
fn grown_by(
    alloc: Global,
    flips: &mut Flips,
    most: u64,
    refuted: &mut RefutedSets,
    satisfied: &SatisfiedSets,
    assign: &Assign,
) -> Result<Option<Turned>, AllocError>
    ensures flips { flips.new ≡ flips.old }
    ensures refuted { refuted.new ≡ refuted.old }
    ensures grown { IfOk result (λ found. IfSome found (λ turned. Satisfies flips.old turned.out turned.assign)) }
{
    if flips.work() > most {
        return Ok(None);
    }
    flips.begin(assign);
    let groups = flips.problem().groups();
    grow(flips, refuted, groups);
    let out = flips.left_out(alloc)?;
    if satisfied.has(&out) {
        return Ok(None);
    }
    let Some(shown) = flips.shown(alloc, &out)? else {
        return Ok(None);
    };
    Ok(Some(Turned { out, assign: shown }))
}

// Tries each group that the assignment makes false, and that no refuted set is known to keep out.
fn grow(flips: &mut Flips, refuted: &mut RefutedSets, groups: u32)
    ensures flips { flips.new ≡ flips.old }
    ensures refuted { refuted.new ≡ refuted.old }
{
    for at in 0..groups {
        if may_be_true(flips.kept(), refuted, at + 1) {
            flips.try_group(at + 1);
        }
    }
}

// Whether a group is not marked, and no known refuted set lies within the marked groups and this one.
fn may_be_true(marks: &[bool], refuted: &mut RefutedSets, group: u32) -> bool
    ensures { refuted.new ≡ refuted.old }
{
    !is_marked(marks, group) && !refuted.is_found(marks, group)
}
