//! Records are checked.
ghost use Rattle.std.specs.Prelude.{◌≡◌};
ghost use Rattle.evidence_rec.specs.Basis.{basis_of};

use evidence_rec::{Record, RecordChecker, Records, Verdict, check_record};
use gm_base::Problem;
use lawful_fakes::is_shaped;
use std::alloc::{AllocError, Global};
use trial_script::{known, show};

/// Checks a record behind these earlier ones by a checker of its own, and tells the verdict.
pub fn check_one(
    problem: &Problem,
    earlier: &Records,
    record: &Record,
    alloc: Global,
    out: &mut String,
) -> Result<bool, AllocError> {
    if !is_shaped(problem, record) {
        return show("has another shape", out);
    }
    match check_record(alloc, problem, earlier, record)? {
        Verdict::Ok => show("accepted", out),
        Verdict::Refused { part, why } => {
            let number = why.number();
            known(writeln!(out, "refused {number} at its line {part}"))
        }
    }
}

/// Checks all records by one checker, each behind those before it, and tells which are accepted.
pub fn check_kept(
    problem: &Problem,
    kept: Records,
    alloc: Global,
    out: &mut String,
) -> Result<bool, AllocError> {
    let mut checker = RecordChecker::new(alloc, problem)?;
    let mut earlier = Records::new(alloc);
    for record in kept.into_vec() {
        check_next(&mut checker, problem, &earlier, &record, alloc, out)?;
        earlier.push(record)?;
    }
    Ok(true)
}

fn check_next(
    checker: &mut RecordChecker,
    problem: &Problem,
    earlier: &Records,
    record: &Record,
    alloc: Global,
    out: &mut String,
) -> Result<bool, AllocError>
    requires { checker.old ≡ basis_of problem.now }
    ensures { checker.new ≡ checker.old }
{
    if !is_shaped(problem, record) {
        return show("has another shape", out);
    }
    let verdict = checker.check(alloc, problem, earlier, record)?;
    show(
        if verdict.is_ok() {
            "accepted"
        } else {
            "refused"
        },
        out,
    )
}
