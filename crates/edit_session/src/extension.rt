//! Where a problem is no extension of another one.
ghost use Rattle.std.specs.Prelude.{◌≡◌, ◌+◌, ◌↔◌, IfNone, IsTrue, drop, length};
ghost use Rattle.std.specs.Cmp.Lexicographic.{pointwise};
ghost use Rattle.std.specs.Ordering.{int_eq};
ghost use Rattle.edit_session.specs.Extends.{Extends, first_break, first_other, first_within, same_clause};

use gm_base::{Clause, Lit, Problem};

/// The place, from 1, of the first clause of the new problem that breaks the extension of the old one: one that is missing or
/// another than it was, or a further one in a group that the old problem has. It is 0 where the new problem has fewer
/// variables or groups, and None where it extends the old one.
pub fn first_break(old: &Problem, new: &Problem) -> Option<u64>
    ensures place { result ≡ first_break old.now new.now }
    ensures none { IfNone result (Extends old.now new.now) }
{
    if new.vars() < old.vars() || new.groups() < old.groups() {
        return Some(0);
    }
    match first_other(old, new) {
        Some(place) => Some(place),
        None => first_within(old, new),
    }
}

/// The place of the first clause that is missing, or another than it was.
fn first_other(old: &Problem, new: &Problem) -> Option<u64>
    ensures { result ≡ first_other 1 old.now.clauses new.now.clauses }
{
    for at in 0..old.len() {
        if at >= new.len() || !is_same(old.clause(at), new.clause(at)) {
            return Some(at as u64 + 1);
        }
    }
    None
}

/// The place of the first further clause in a group that the old problem has.
fn first_within(old: &Problem, new: &Problem) -> Option<u64>
    ensures { result ≡ first_within old.now.groups (length old.now.clauses + 1) (drop (length old.now.clauses) new.now.clauses) }
{
    for at in old.len()..new.len() {
        if new.clause(at).group <= old.groups() {
            return Some(at as u64 + 1);
        }
    }
    None
}

fn is_same(old: &Clause, new: &Clause) -> bool
    ensures { result ≡ same_clause old.now new.now }
{
    old.group == new.group && are_same(old.lits.as_slice(), new.lits.as_slice())
}

fn are_same(old: &[Lit], new: &[Lit]) -> bool
    ensures { result ≡ pointwise int_eq old.now new.now }
{
    old == new
}
