//! Small problems, and their reports by a plain program: each set of groups is tried with each assignment.
use std::alloc::{AllocError, Global};

/// A clause in its group, of at most two literals; 0 stands for none.
#[derive(Clone, Copy)]
struct SmallClause {
    group: u32,
    first: i32,
    second: i32,
}

/// At most eight groups and four variables.
#[derive(Drop)]
pub struct Small {
    vars: u32,
    groups: u32,
    clauses: Vec<SmallClause>,
}

/// A number below `below`, from a linear congruential generator.
fn draw(state: &mut u64, below: u32) -> u32 {
    *state = state
        .wrapping_mul(6_364_136_223_846_793_005)
        .wrapping_add(1_442_695_040_888_963_407);
    ((*state >> 33) as u32) % below.max(1)
}

/// A literal over so many variables, or 0.
fn draw_literal(state: &mut u64, vars: u32) -> i32 {
    let var = i32::try_from(draw(state, vars.saturating_add(1))).unwrap_or(0);
    if draw(state, 2) == 0 {
        var
    } else {
        var.wrapping_neg()
    }
}

/// A problem that the generator makes.
pub fn draw_problem(alloc: Global, state: &mut u64) -> Result<Small, AllocError> {
    let vars = draw(state, 4).wrapping_add(1);
    let groups = draw(state, 9);
    let count = draw(state, 14);
    let mut clauses = Vec::new(alloc);
    for _ in 0..count {
        let group = draw(state, groups.wrapping_add(1));
        let first = draw_literal(state, vars);
        let second = draw_literal(state, vars);
        clauses.push(SmallClause {
            group,
            first,
            second,
        })?;
    }
    Ok(Small {
        vars,
        groups,
        clauses,
    })
}

/// Whether bit `at` is set, counted from 1.
fn has_bit(bits: u32, at: u32) -> bool {
    bits.wrapping_shr(at.wrapping_sub(1)) & 1 == 1
}

fn literal_true(assign: u32, literal: i32) -> bool {
    literal != 0 && has_bit(assign, literal.unsigned_abs()) == (literal > 0)
}

impl Small {
    /// The problem as a file.
    pub fn text(&self, alloc: Global) -> Result<String, AllocError> {
        let mut text = format!(in alloc;
            "p gcnf {} {} {}\n",
            self.vars,
            self.clauses.len(),
            self.groups
        )?;
        for clause in &self.clauses {
            let group = format!(in alloc; "{{{}}}", clause.group)?;
            text.push_str(group.as_str())?;
            push_literal(alloc, &mut text, clause.first)?;
            push_literal(alloc, &mut text, clause.second)?;
            text.push_str(" 0\n")?;
        }
        Ok(text)
    }

    /// Whether the assignment makes the clauses of the background and of the set true.
    fn satisfies(&self, set: u32, assign: u32) -> bool {
        for clause in &self.clauses {
            let is_present = clause.group == 0 || has_bit(set, clause.group);
            let is_true = literal_true(assign, clause.first) || literal_true(assign, clause.second);
            if is_present && !is_true {
                return false;
            }
        }
        true
    }

    fn is_sat(&self, set: u32) -> bool {
        for assign in 0..1u32.wrapping_shl(self.vars) {
            if self.satisfies(set, assign) {
                return true;
            }
        }
        false
    }

    fn all_groups(&self) -> u32 {
        1u32.wrapping_shl(self.groups).wrapping_sub(1)
    }

    /// Unsatisfiable, and each proper subset is satisfiable.
    fn is_conflict(&self, set: u32) -> bool {
        for part in 0..set {
            if part & set == part && !self.is_sat(part) {
                return false;
            }
        }
        !self.is_sat(set)
    }

    /// The groups outside are satisfiable, and those outside of each proper subset are not.
    fn is_correction(&self, set: u32) -> bool {
        for part in 0..set {
            if part & set == part && self.is_sat(self.all_groups() & !part) {
                return false;
            }
        }
        self.is_sat(self.all_groups() & !set)
    }

    /// The report of all minimal conflicts and minimal corrections.
    pub fn report(&self, alloc: Global) -> Result<String, AllocError> {
        let mut text = format!(in alloc; "p gmus {}\ns COMPLETE\n", self.groups)?;
        let mut conflicts = 0;
        let mut corrections = 0;
        let mut rest = String::new(alloc);
        let mut set = Vec::new(alloc);
        for _ in 0..1u32.wrapping_shl(self.groups) {
            let bits = bits_of(&set);
            if self.is_conflict(bits) {
                push_set(alloc, &mut text, "u", &set)?;
                conflicts = u32::wrapping_add(conflicts, 1);
            }
            if self.is_correction(bits) {
                push_set(alloc, &mut rest, "m", &set)?;
                corrections = u32::wrapping_add(corrections, 1);
            }
            step(&mut set, self.groups)?;
        }
        text.push_str(rest.as_str())?;
        let end = format!(in alloc; "e {} {}\n", conflicts, corrections)?;
        text.push_str(end.as_str())?;
        Ok(text)
    }
}

fn push_literal(alloc: Global, text: &mut String, literal: i32) -> Result<(), AllocError> {
    if literal == 0 {
        return Ok(());
    }
    let word = format!(in alloc; " {}", literal)?;
    text.push_str(word.as_str())
}

fn push_set(alloc: Global, text: &mut String, letter: &str, set: &[u32]) -> Result<(), AllocError> {
    text.push_str(letter)?;
    for group in set {
        let word = format!(in alloc; " {}", *group)?;
        text.push_str(word.as_str())?;
    }
    text.push_str(" 0\n")
}

fn bits_of(set: &[u32]) -> u32 {
    let mut bits = 0u32;
    for group in set {
        bits |= 1u32.wrapping_shl(group.wrapping_sub(1));
    }
    bits
}

/// The next set in lexicographic order: the last group is followed by the next one, or gives way to it.
fn step(set: &mut Vec<u32>, groups: u32) -> Result<(), AllocError> {
    let last = set.last().copied().unwrap_or(0);
    if last < groups {
        set.push(last.wrapping_add(1))?;
        return Ok(());
    }
    set.pop();
    if let Some(before) = set.pop() {
        set.push(before.wrapping_add(1))?;
    }
    Ok(())
}
