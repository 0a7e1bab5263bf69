//! A level: the groups that are counted for a kind, in their order, and how many of them may count.
//!
//! If there are no more groups than may count, nothing has to be said: such a level has no counter, no clause and no
//! variable of its own.
ghost use Rattle.std.specs.Prelude.{◌≡◌, ◌+◌, ◌<◌, ◌^◌, ◌∷◌, ◌++◌, [], Some, None, nat_lt, if◌then◌else◌, length, slice_get, IfOk, OnOk};
ghost use Rattle.std.specs.Option.{option_to_list};
ghost use Rattle.size_counter.specs.Counter.{IsOrder};
ghost use Rattle.size_counter.specs.Levels.{level_counter, level_limit, level_vars};

use crate::counter::{counter_clause, counter_len, counter_vars, limit_lit};
use gm_base::{Kind, Lit, Lits};
use sat_base::Row;
use std::alloc::{AllocError, Global};
use std::marker::Model;

/// Groups that are counted in an order, and how many of them may count.
#[derive(Drop)]
pub struct Level {
    groups: u32,
    bound: u32,
    kind: Kind,
    order: Vec<u32>,
}

impl Model for Level {
    ghost use Rattle.size_counter.specs.Counter.{IsOrder};
    ghost use Rattle.size_counter.specs.Levels.{Level as Seen};

    ghost Value = { Seen };

    ghost view = { λ l. record { kind = l.kind; groups = l.groups; bound = l.bound; order = l.order.items } };

    ghost invariant = { λ l. IsOrder l.groups l.order.items };
}

impl Level {
    /// A level of groups in an order.
    pub fn new(groups: u32, bound: u32, kind: Kind, order: Vec<u32>) -> Level
        requires { IsOrder groups order.items }
        ensures { result ≡ record { kind = kind; groups = groups; bound = bound; order = order.items } }
    {
        Level {
            groups,
            bound,
            kind,
            order,
        }
    }

    pub fn kind(&self) -> Kind
        ensures { result ≡ self.now.kind }
    {
        self.kind
    }

    /// How many groups the problem has.
    pub fn groups(&self) -> u32
        ensures { result ≡ self.now.groups }
    {
        self.groups
    }

    /// How many of the groups in the order may count.
    pub fn bound(&self) -> u32
        ensures { result ≡ self.now.bound }
    {
        self.bound
    }

    /// The groups that are counted, in their order.
    pub fn order(&self) -> &[u32]
        ensures { result.now ≡ self.now.order }
    {
        self.order.as_slice()
    }

    /// Whether more groups are there than may count, so that there is a counter.
    pub fn is_counted(&self) -> bool
        ensures { result ≡ nat_lt self.now.bound (length self.now.order) }
    {
        (self.bound as usize) < self.order.len()
    }

    /// How many variables the groups and the counter have. `None` if a literal can't name them all: they are more than
    /// 2,147,483,647.
    pub fn vars(&self) -> Option<u32>
        ensures { result ≡ (if nat_lt (level_vars self.now) (2 ^ 31) then Some (level_vars self.now) else None) }
    {
        if self.is_counted() {
            counter_vars(self.groups, self.bound, self.rows())
        } else if self.groups < 1 << 31 {
            Some(self.groups)
        } else {
            None
        }
    }

    /// How many clauses the counter has.
    pub fn len(&self) -> u64
        ensures { result ≡ length (level_counter self.now) }
    {
        if self.is_counted() {
            counter_len(self.bound, self.rows())
        } else {
            0
        }
    }

    /// The clause at a place, from 0. No other one is made.
    pub fn clause(&self, alloc: Global, at: u64) -> Result<Lits, AllocError>
        requires small { level_vars self.now < 2 ^ 31 }
        requires within { at < length (level_counter self.now) }
        ensures { IfOk result (λ clause. slice_get (level_counter self.now) at ≡ Some clause) }
    {
        counter_clause(
            alloc,
            self.groups,
            self.bound,
            self.kind,
            self.order.as_slice(),
            at,
        )
    }

    /// Adds all clauses of the counter.
    pub fn add_clauses(&self, alloc: Global, clauses: &mut Row<Lits>) -> Result<(), AllocError>
        requires { level_vars self.now < 2 ^ 31 }
        ensures { OnOk result (clauses.new ≡ clauses.old ++ level_counter self.now) }
    {
        for at in 0..self.len() {
            clauses.push(self.clause(alloc, at)?)?;
        }
        Ok(())
    }

    /// "Not more than the bound count", which nothing has to say if there is no counter.
    pub fn limit(&self) -> Option<Lit>
        requires { level_vars self.now < 2 ^ 31 }
        ensures { option_to_list result ≡ level_limit self.now }
    {
        if self.is_counted() {
            limit_lit(self.groups, self.bound, self.rows())
        } else {
            None
        }
    }

    // How many groups are counted. They are no more than there are, so their number is small.
    fn rows(&self) -> u32
        ensures { result ≡ length self.now.order }
    {
        self.order.len().min(self.groups as usize) as u32
    }
}
