//! Problems that numbers make.
//!
//! A listing can be tried on problems of any size if their minimal sets are known beforehand. Such a problem is a chain of
//! links that clash together and not without any one of them (`specs/Chain.antt`). A generator of numbers decides which
//! links are said by two groups, so that a seed and a size give one problem on each machine.
ghost use Rattle.std.specs.Prelude.{◌≡◌, ◌≤◌, ◌<◌, ◌+◌, ◌++◌, ◌∷◌, ◌==◌, [], ℕ, List, if◌then◌else◌, length, neg_ℤ, pos, replicate, IfOk, OnOk};
ghost use Rattle.std.specs.List.{AllByRecursion};
ghost use Rattle.gcnf_text.specs.Chain as chain;
ghost use Rattle.gcnf_text.specs.Chain.{chain_widths, clauses_from, core, core_or, group_clauses, links_from, made_case, modulus, widths};

use gm_base::{Clause, Clauses, Lit, Lits, Problem};
use std::alloc::{AllocError, Global};

/// What the states of the generator are below.
const MODULUS: u32 = 65_537;

/// The most links with two groups.
const MOST_WIDE: u32 = 8;

/// The problem of this seed, with a chain of this size.
pub fn make_case(alloc: Global, seed: u64, size: u32) -> Result<Problem, AllocError>
    requires some { 1 ≤ size }
    requires few { size ≤ 1000 }
    ensures { IfOk result (λ p. p ≡ made_case seed size) }
{
    let links = links_of(alloc, seed, size)?;
    let groups = links.len() as u32;
    let clauses = clauses_of(alloc, size, links.as_slice())?;
    Problem::new(alloc, size + 2 * groups, groups, clauses)
}

/// The link of each group.
fn links_of(alloc: Global, seed: u64, size: u32) -> Result<Vec<u32>, AllocError>
    requires { size ≤ 1000 }
    ensures links { IfOk result (λ links. links.items ≡ links_from 0 (chain_widths seed size)) }
    ensures few { IfOk result (λ links. length links.items ≤ size + 9) }
    ensures in_range { IfOk result (λ links. AllByRecursion (λ link. link ≤ size) links.items) }
{
    let mut state = (seed % u64::from(MODULUS)) as u32;
    let mut room = MOST_WIDE;
    let mut links = Vec::new(alloc);
    for link in 0..size + 1 {
        state = next_state(state);
        let width = next_width(state, &mut room);
        push_link(&mut links, link, width)?;
    }
    Ok(links)
}

fn next_state(state: u32) -> u32
    requires { state < modulus }
    ensures next { result ≡ chain.next_state state }
    ensures small { result < modulus }
{
    (75 * state + 74) % MODULUS
}

/// The width of the link with this state, where `room` links may still be wide.
fn next_width(state: u32, room: &mut u32) -> u32
    ensures { (states : List ℕ) → widths room.old (state ∷ states) ≡ result ∷ widths room.new states }
{
    if state % 3 == 0 && *room > 0 {
        *room -= 1;
        return 2;
    }
    1
}

/// The groups of a link.
fn push_link(links: &mut Vec<u32>, link: u32, width: u32) -> Result<(), AllocError>
    ensures { OnOk result (links.new.items ≡ links.old.items ++ replicate width link) }
{
    for _group in 0..width {
        links.push(link)?;
    }
    Ok(())
}

/// The clauses of groups with these links.
fn clauses_of(alloc: Global, size: u32, links: &[u32]) -> Result<Clauses, AllocError>
    requires some { 1 ≤ size }
    requires small { size ≤ 1000 }
    requires few { length links.now ≤ size + 9 }
    requires in_range { AllByRecursion (λ link. link ≤ size) links.now }
    ensures { IfOk result (λ clauses. clauses ≡ clauses_from size 1 links.now) }
{
    let mut clauses = Clauses::new(alloc);
    for at in 0..links.len() {
        push_group(alloc, &mut clauses, size, at as u32 + 1, links[at])?;
    }
    Ok(clauses)
}

/// The clauses of a group.
fn push_group(
    alloc: Global,
    clauses: &mut Clauses,
    size: u32,
    group: u32,
    link: u32,
) -> Result<(), AllocError>
    requires small { size ≤ 1000 }
    requires some { 1 ≤ group }
    requires few { group ≤ size + 9 }
    requires in_range { link ≤ size }
    ensures { OnOk result (clauses.new ≡ clauses.old ++ group_clauses size group link) }
{
    let p = Lit::new((size + 2 * group - 1) as i32);
    let q = Lit::new((size + 2 * group) as i32);
    push_both(alloc, clauses, size, group, link, p, q)?;
    push_both(alloc, clauses, size, group, link, p.negated(), q)
}

/// The two clauses of a group with this literal, one for each sign of the other.
fn push_both(
    alloc: Global,
    clauses: &mut Clauses,
    size: u32,
    group: u32,
    link: u32,
    p: Lit,
    q: Lit,
) -> Result<(), AllocError>
    requires small { size ≤ 1000 }
    requires in_range { link ≤ size }
    ensures { OnOk result (clauses.new ≡ clauses.old ++ core_or group (core size link) p q ∷ core_or group (core size link) p (neg_ℤ q) ∷ []) }
{
    clauses.push(core_or(alloc, size, group, link, p, q)?)?;
    clauses.push(core_or(alloc, size, group, link, p, q.negated())?)
}

/// The clause of a group with these two literals behind the core.
fn core_or(
    alloc: Global,
    size: u32,
    group: u32,
    link: u32,
    p: Lit,
    q: Lit,
) -> Result<Clause, AllocError>
    requires small { size ≤ 1000 }
    requires in_range { link ≤ size }
    ensures { IfOk result (λ clause. clause ≡ core_or group (core size link) p q) }
{
    let mut lits = Vec::with_capacity(alloc, 4)?;
    push_core(&mut lits, size, link)?;
    lits.push(p)?;
    lits.push(q)?;
    Ok(Clause {
        group,
        lits: Lits::from_vec(lits),
    })
}

/// What a link says.
fn push_core(lits: &mut Vec<Lit>, size: u32, link: u32) -> Result<(), AllocError>
    requires small { size ≤ 1000 }
    requires in_range { link ≤ size }
    ensures { OnOk result (lits.new.items ≡ lits.old.items ++ core size link) }
{
    push_from(lits, link)?;
    push_to(lits, size, link)
}

/// That the variable of a link is false, which the first link does not say.
fn push_from(lits: &mut Vec<Lit>, link: u32) -> Result<(), AllocError>
    requires { link ≤ 1000 }
    ensures { OnOk result (lits.new.items ≡ lits.old.items ++ (if link == 0 then [] else neg_ℤ (pos link) ∷ [])) }
{
    if link != 0 {
        lits.push(Lit::new(-(link as i32)))?;
    }
    Ok(())
}

/// That the next variable is true, which the last link does not say.
fn push_to(lits: &mut Vec<Lit>, size: u32, link: u32) -> Result<(), AllocError>
    requires { link ≤ 1000 }
    ensures { OnOk result (lits.new.items ≡ lits.old.items ++ (if link == size then [] else pos (link + 1) ∷ [])) }
{
    if link != size {
        lits.push(Lit::new(link as i32 + 1))?;
    }
    Ok(())
}
