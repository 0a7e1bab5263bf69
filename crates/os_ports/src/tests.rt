//! The adapters over a real file and real streams, whose counts are all that a contract says of the system.
mod adapters;
mod disks;

use adapters::{Told, try_adapters};
use disks::{ToldOfDisk, try_disk};
use std::test::Fail;
use std::time::{SystemTime, UNIX_EPOCH};

// A name of this moment's, for a file.
fn fresh_name(rt: &HostRuntime) -> Result<String, Fail> {
    let now = SystemTime::now(rt)?.duration_since(UNIX_EPOCH)?;
    let (seconds, nanos) = (now.as_secs(), now.subsec_nanos());
    Ok(format!(in rt.alloc(); "/tmp/gmus-adapters-{seconds}-{nanos}")?)
}

#[test]
fn adapters_move_bytes_and_count_faults(rt: HostRuntime) -> Result<(), Fail> {
    let told = tell_of_adapters(&rt)?;
    assert_eq!(rt; told.written, (13, [false, false, true, true, false]));
    assert_eq!(rt; told.read, ["the text", "too long", "failed", "failed"]);
    assert!(rt; told.removed);
    assert_eq!(rt; told.filled, [true, false], "a full device takes nothing");
    assert_eq!(rt; told.faults, [(0, 3), (2, 3), (2, 4)]);
    assert_eq!(rt; told.streams, [(19, 0), (18, 0)]);
    Ok(())
}

// Calls of the adapters, one after another, under a fresh name.
fn tell_of_adapters(rt: &HostRuntime) -> Result<Told, Fail> {
    let name = fresh_name(rt)?;
    Ok(try_adapters(rt, name.as_str()))
}

#[test]
fn disk_keeps_bytes_and_counts_faults(rt: HostRuntime) -> Result<(), Fail> {
    let told = tell_of_disk(&rt)?;
    assert_eq!(rt; told.unopened, [false, false, false, false]);
    assert_eq!(rt; told.opened, [false, false, false, true]);
    assert_eq!(rt; told.sizes, [0, 16, 16]);
    assert_eq!(rt; told.written, [true, true, false, true]);
    assert_eq!(rt; told.read, [8, 0, 0]);
    assert!(rt; told.is_same && told.removed);
    assert_eq!(rt; told.refused, [false, false, false]);
    assert_eq!(rt; told.faults, [4, 7, 8, 10]);
    Ok(())
}

// Calls of a disk, one after another, under a fresh name.
fn tell_of_disk(rt: &HostRuntime) -> Result<ToldOfDisk, Fail> {
    let name = fresh_name(rt)?;
    let lost = format!(in rt.alloc(); "{name}-lost/journal")?;
    Ok(try_disk(rt, name.as_str(), lost.as_str()))
}
