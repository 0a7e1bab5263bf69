//! How a search goes on from the trail that is there.
//!
//! What stands on the trail is sound whoever asked for it: nothing was left to propagate before each decision. So a search
//! keeps the levels that begin with its own assumed literals, in their order, and propagates none of them again. Where these
//! are all assumed levels and all its assumed literals are true there, the choices above them stay as well: a search that
//! assumes nothing keeps the whole trail of one that assumed nothing.
ghost use Rattle.std.specs.Prelude.{◌≡◌, ◌⊎◌, ◌≤◌, ℤ, take, IfSome};
ghost use Rattle.sat_base.specs.Literals.{AreLiterals, IsLiteral};
ghost use Rattle.sat_base.specs.Members.{In};
ghost use Rattle.sat_base.specs.Units.{AllTrue};
ghost use Rattle.trail_book.specs.Trail.{trues, top, keep};
ghost use Rattle.learn_step.specs.Reasons.{IsDecision};
ghost use Rattle.cdcl_core.specs.Search.{IsSearch, IsReady, IsAtRoot};
ghost use Rattle.cdcl_core.specs.Resuming.{IsShared};

use crate::search::Search;
use propagate::{back_to, level_of};
use sat_base::Lit;
use trail_book::Trail;

impl Search {
    /// Goes on under these assumed literals.
    pub fn resume(&mut self, assumed: &[Lit])
        requires ready { IsReady self.old }
        requires literals { AreLiterals self.old.trail.vars assumed.now }
        ensures search { IsSearch self.new assumed.now }
        ensures log { self.new.log ≡ self.old.log }
        ensures vars { self.new.trail.vars ≡ self.old.trail.vars }
        ensures touched { self.new.trail.touched ≡ self.old.trail.touched }
        ensures true_first { self.new.true_first ≡ self.old.true_first }
    {
        let mut reached = 0;
        let levels = shared(&self.trail, assumed, self.assumed_levels, &mut reached);
        self.assumed_true = reached;
        if levels == self.assumed_levels && reached == assumed.len() {
            return;
        }
        self.assumed_levels = levels;
        back_to(&mut self.store, &mut self.trail, levels);
    }

    /// Takes back all levels.
    pub fn to_root(&mut self)
        requires { IsReady self.old }
        ensures at_root { IsAtRoot self.new }
        ensures log { self.new.log ≡ self.old.log }
        ensures vars { self.new.trail.vars ≡ self.old.trail.vars }
        ensures touched { self.new.trail.touched ≡ self.old.trail.touched }
        ensures true_first { self.new.true_first ≡ self.old.true_first }
        ensures levels { self.new.assumed_levels ≡ 0 }
        ensures reached { self.new.assumed_true ≡ 0 }
    {
        self.assumed_levels = 0;
        self.assumed_true = 0;
        back_to(&mut self.store, &mut self.trail, 0);
    }

    /// Takes back the levels above this one.
    pub fn to_level(&mut self, level: u32)
        requires { IsReady self.old }
        ensures ready { IsReady self.new }
        ensures log { self.new.log ≡ self.old.log }
        ensures vars { self.new.trail.vars ≡ self.old.trail.vars }
        ensures touched { self.new.trail.touched ≡ self.old.trail.touched }
        ensures true_first { self.new.true_first ≡ self.old.true_first }
    {
        self.assumed_levels = self.assumed_levels.min(level);
        self.assumed_true = 0;
        back_to(&mut self.store, &mut self.trail, level);
    }
}

// How many of the first levels, up to `most`, were decided as assumed literals, in their order. Counts those that are true
// there.
fn shared(trail: &Trail, assumed: &[Lit], most: u32, reached: &mut usize) -> u32
    requires { AreLiterals trail.now.vars assumed.now }
    ensures most { result ≤ most }
    ensures decided { (lit : ℤ) → IsDecision (keep result trail.now.entries) lit → In lit assumed.now }
    ensures reached { AllTrue (trues (keep result trail.now.entries)) (take reached.new assumed.now) }
{
    let mut levels = 0;
    *reached = 0;
    while *reached < assumed.len() {
        let Some(more) = level_with(trail, assumed[*reached], levels, most) else {
            return levels;
        };
        levels = more;
        *reached += 1;
    }
    levels
}

// The levels that are kept with this literal, where it is true up to them: the same, or one more that began with it.
fn level_with(trail: &Trail, lit: Lit, levels: u32, most: u32) -> Option<u32>
    requires literal { IsLiteral trail.now.vars lit }
    requires levels { levels ≤ most }
    ensures shared { IfSome result (λ more. IsShared trail.now.entries lit levels more) }
    ensures most { IfSome result (λ more. more ≤ most) }
{
    let _vars = trail.vars(); // No variable stands twice.
    let Some(true) = trail.value(lit) else {
        return None;
    };
    let level = level_of(trail, lit);
    if level <= levels {
        return Some(levels);
    }
    if level - 1 == levels && level <= most && trail.reason(lit.var()).is_none() {
        return Some(level);
    }
    None
}
