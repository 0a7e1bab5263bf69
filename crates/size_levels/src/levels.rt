//! The level of records.
ghost use Rattle.std.specs.Prelude.{◌≡◌, IfOk};
ghost use Rattle.evidence_rec.specs.Records.{founds};
ghost use Rattle.size_counter.specs.Levels.{level};
ghost use Rattle.size_levels.specs.Sizes.{AreSetsOf};

use evidence_rec::Record;
use gm_base::Kind;
use size_counter::{Level, Naming};
use std::alloc::{AllocError, Global};

/// The level at which at most so many groups count, by the sets of records of a problem with so many groups.
pub fn level_of(
    alloc: Global,
    kind: Kind,
    groups: u32,
    most: u32,
    records: &[Record],
) -> Result<Level, AllocError>
    requires { AreSetsOf groups (founds records.now) }
    ensures { IfOk result (λ l. l ≡ level kind groups most (founds records.now)) }
{
    let mut naming = Naming::new(alloc, kind);
    for record in records {
        naming.add(record.kind(), record.set().as_slice())?;
    }
    naming.level(alloc, groups, most)
}
