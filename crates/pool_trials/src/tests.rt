//! Two workers over oracles that look for each other.
ghost use Rattle.std.specs.Prelude.{◌≡◌, All, IfOk, length};
ghost use Rattle.evidence_rec.specs.Seeding.{new_engine};
ghost use Rattle.worker_pool.specs.Workers.{IsFresh};

use crate::meeting::{Meeting, MeetingOracle};
use evidence_rec::Records;
use gm_base::{Kind, Problem};
use gm_journal::Journal;
use gm_ports::{NoDisk, OpenGate};
use lawful_fakes::example::{derivation, four_clauses, set_of, table_of};
use lawful_fakes::{Lacking, ScriptedMap};
use map_core::{Closing, Goal, Verdict};
use sat_base::Row;
use std::alloc::Global;
use std::process::Abort;
use std::sync::Wait;
use std::sync::atomic::Ordering;
use std::test::Fail;
use std::thread::Threads;
use worker_pool::{Outcome, enumerate};

const ALL: [(bool, bool); 4] = [(false, false), (false, true), (true, false), (true, true)];

// Seeds of which each is open until its record is posted, and then the next one is. They give the corrections {1}, {2, 4}
// and {2, 3} and the conflicts {1, 2} and {1, 3, 4}, in this order.
const SEEDS: [&[u32]; 5] = [&[2], &[1], &[1, 4], &[1, 2, 3, 4], &[1, 3, 4]];

// A map that hands out the first of these seeds that is open, until none is. Then group 1 is in, so 2 is out, so 4 and 3
// are in, and the last conflict is falsified.
fn map_of(alloc: Global, problem: &Problem) -> Result<ScriptedMap, Lacking>
    ensures { IfOk result (λ map. map ≡ new_engine problem.now.groups) }
{
    let mut script = Row::new(alloc);
    for seed in SEEDS {
        script.push(set_of(alloc, problem.groups(), seed)?)?;
    }
    let ending = derivation(alloc, 6, &[], &[1, 4, 2, 3, 5])?;
    Ok(ScriptedMap::new(alloc, problem.groups(), script, ending).repeating())
}

// Two oracles of the four clauses, each of which looks for the other.
fn pair_of<'a>(
    alloc: Global,
    problem: &Problem,
    meeting: &'a Meeting,
) -> Result<Vec<MeetingOracle<'a>>, Lacking>
    ensures count { IfOk result (λ pair. length pair.items ≡ 2) }
    ensures fresh { IfOk result (λ pair. All (IsFresh problem.now) pair.items) }
{
    let first = table_of(alloc, problem, &ALL, false)?;
    let second = table_of(alloc, problem, &ALL, false)?;
    let mut pair = Vec::with_capacity(alloc, 2)?;
    pair.push_reserved(MeetingOracle::new(first, meeting, true));
    pair.push_reserved(MeetingOracle::new(second, meeting, false));
    Ok(pair)
}

fn list_in_meeting<R: Threads + Wait + Sync>(
    rt: &R,
    alloc: Global,
    meeting: &Meeting,
) -> Result<Outcome<NoDisk>, Lacking> {
    let problem = four_clauses(alloc)?;
    let _groups = problem.groups(); // The problem is well-formed.
    let pair = pair_of(alloc, &problem, meeting)?;
    let map = map_of(alloc, &problem)?;
    let records = Records::new(alloc);
    Ok(enumerate(
        rt,
        alloc,
        &problem,
        records,
        pair,
        map,
        100,
        9,
        Goal::All,
        &OpenGate,
        None::<(Journal<NoDisk>, Vec<gm_journal::Seat<NoDisk>>)>,
    ))
}

fn holds(records: &Records, kind: Kind, groups: &[u32]) -> bool {
    let mut found = false;
    for record in records.as_slice() {
        found |= record.kind() == kind && record.set().as_slice() == groups;
    }
    found
}

const WANTED: [(Kind, &[u32]); 5] = [
    (Kind::Conflict, &[1, 2]),
    (Kind::Conflict, &[1, 3, 4]),
    (Kind::Correction, &[1]),
    (Kind::Correction, &[2, 3]),
    (Kind::Correction, &[2, 4]),
];

// Fails unless the records are of the five sets.
fn expect_five(rt: &impl Abort, closing: &Closing) {
    assert_eq!(rt; closing.records.len(), 5);
    for (kind, groups) in WANTED {
        assert!(rt;
            holds(&closing.records, kind, groups),
            "{kind:?} {groups:?}"
        );
    }
}

#[test]
fn two_oracles_are_asked_at_the_same_time(rt: HostRuntime) -> Result<(), Fail> {
    let meeting = Meeting::new();
    let outcome = list_in_meeting(&rt, rt.alloc(), &meeting)?;
    assert_eq!(rt; meeting.missed.load(Ordering::SeqCst), 0);
    assert_eq!(rt; outcome.verdict, Verdict::Complete);
    assert_eq!(rt; outcome.logs.len(), 3);
    assert_eq!(rt; outcome.spent, 0);
    let Some(closing) = &outcome.closing else {
        return Err(Fail::from("nothing is closed"));
    };
    expect_five(&rt, closing);
    Ok(())
}
