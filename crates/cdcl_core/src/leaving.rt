//! Leaving an assignment.
//!
//! A search that assumes nothing goes on from the trail that is there. Where the last one ended with an assignment, and no
//! clause came since that it makes false, it would find the same one again; and where one came, it finds one that differs
//! in few values. Who wants others has the trail left first: a variable that is false on it is decided before all that it
//! does not keep, and then those of the last few times. Which false variable it is goes round, so that each time another
//! one has its turn. The same assignment comes again only where little else does.
//!
//! It is left where the same one would come again, and else at intervals that grow, so that what the kept trail saves is not
//! lost. At an interval all levels are taken back. Where the same one would come again, half of the levels stay that lie
//! below the one at which the variable became false: what was decided there need not be propagated anew, and what comes
//! above it still differs from what other searches found.
ghost use Rattle.std.specs.Prelude.{◌≡◌, ◌≤◌, true, neg_ℤ, IfSome};
ghost use Rattle.sat_base.specs.Literals.{IsLiteral};
ghost use Rattle.sat_base.specs.Members.{In};
ghost use Rattle.trail_book.specs.Trail.{trues};
ghost use Rattle.cdcl_core.specs.Search.{IsReady};

use crate::search::Search;
use propagate::level_of;
use sat_base::Lit;
use trail_book::Trail;

impl Search {
    /// Plans a variable that is false and takes levels back until it has no value, where it is time for another assignment or
    /// the last one would come again and may not.
    pub fn leave(&mut self, may_repeat: bool)
        requires { IsReady self.old }
        ensures ready { IsReady self.new }
        ensures log { self.new.log ≡ self.old.log }
        ensures vars { self.new.trail.vars ≡ self.old.trail.vars }
        ensures touched { self.new.trail.touched ≡ self.old.trail.touched }
        ensures true_first { self.new.true_first ≡ self.old.true_first }
    {
        let is_due = self.plan.is_due();
        if !is_due && (may_repeat || !is_whole(&self.trail)) {
            return;
        }
        let last = self.plan.first().map_or(0, |lit| lit.var());
        let Some(lit) = left_out(&self.trail, last) else {
            return;
        };
        self.plan.put_first(lit);
        let level = if is_due {
            0
        } else {
            half_below(&self.trail, lit)
        };
        self.to_level(level);
    }
}

// Whether each touched variable has a value, and all values were propagated.
fn is_whole(trail: &Trail) -> bool {
    trail.done() == trail.len() && trail.is_full()
}

// The next variable behind this one, in a round, that is false above level 0.
fn left_out(trail: &Trail, last: u32) -> Option<Lit>
    ensures { IfSome result (λ lit. In (neg_ℤ lit) (trues trail.now.entries)) }
{
    let vars = trail.vars();
    let middle = last.min(vars);
    match left_out_in(trail, middle, vars) {
        Some(lit) => Some(lit),
        None => left_out_in(trail, 0, middle),
    }
}

// How many levels are half of those below the one at which the literal became false.
fn half_below(trail: &Trail, lit: Lit) -> u32
    requires { In (neg_ℤ lit) (trues trail.now.entries) }
{
    level_of(trail, lit.negated()).saturating_sub(1) / 2
}

// The first variable above `low` and up to `high` that is false above level 0.
fn left_out_in(trail: &Trail, low: u32, high: u32) -> Option<Lit>
    requires { high ≤ trail.now.vars }
    ensures { IfSome result (λ lit. In (neg_ℤ lit) (trues trail.now.entries)) }
{
    let _vars = trail.vars(); // So each variable's number is that of a literal.
    for index in low..high {
        let lit = Lit::new((index + 1) as i32);
        if is_left_out(trail, lit) {
            return Some(lit);
        }
    }
    None
}

// Whether the literal is false, but not at level 0.
fn is_left_out(trail: &Trail, lit: Lit) -> bool
    requires { IsLiteral trail.now.vars lit }
    ensures { result ≡ true → In (neg_ℤ lit) (trues trail.now.entries) }
{
    let _vars = trail.vars(); // No literal is both true and false.
    trail.value(lit) == Some(false) && level_of(trail, lit.negated()) > 0
}
