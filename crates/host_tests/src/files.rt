//! Over files. Each host is dropped by a call before anything is looked at, since each way out of a function that still
//! has one takes it apart.

use crate::fake::Slow;
use crate::steps::{first_write, holds, three_reads, writes};
use npd_host::{FileHost, HostFail};
use std::fs;
use std::test::Fail;

#[test]
fn empties_a_longer_file(rt: HostRuntime) -> Result<(), Fail> {
    fs::write(&rt, "written", b"a longer text")?;
    let mut host = FileHost::new(&rt, rt.alloc());
    let written = writes(&mut host, "written", b"short\n\x00");
    drop(host);
    written?;
    assert!(rt; fs::read(&rt, "written")?.as_slice() == b"short\n\x00".as_slice());
    let mut host = FileHost::new(&rt, rt.alloc());
    let held = holds(&mut host, "written", b"short\n\x00");
    drop(host);
    assert!(rt; held?);
    Ok(())
}

#[test]
fn reads_on_behind_small_reads(rt: HostRuntime) -> Result<(), Fail> {
    fs::write(&rt, "in", b"0123456789")?;
    for (room, wanted) in [(4, "0123456789"), (3, "012345678"), (16, "0123456789")] {
        let mut host = FileHost::new(&rt, rt.alloc());
        let read = three_reads(rt.alloc(), &mut host, "in", room);
        drop(host);
        assert!(rt; read?.as_slice() == wanted.as_bytes());
    }
    let mut host = FileHost::new(&rt, rt.alloc());
    let missing = holds(&mut host, "none", b"");
    drop(host);
    assert!(rt; missing.is_err());
    Ok(())
}

#[test]
fn counts_what_was_taken(rt: HostRuntime) -> Result<(), Fail> {
    let slow = Slow {
        rt: &rt,
        times: 0,
        most: 3,
    };
    let mut host = FileHost::new(&slow, rt.alloc());
    let taken = first_write(&mut host, "parts", b"abcdefg");
    drop(host);
    assert!(rt; taken? == 3);
    assert!(rt; fs::read(&rt, "parts")?.as_slice() == b"abc".as_slice());
    let mut host = FileHost::new(&slow, rt.alloc());
    let written = writes(&mut host, "parts", b"abcdefg");
    drop(host);
    written?;
    assert!(rt; fs::read(&rt, "parts")?.as_slice() == b"abcdefg".as_slice());
    let mut host = FileHost::new(&slow, rt.alloc());
    let held = holds(&mut host, "parts", b"abcdefg");
    drop(host);
    assert!(rt; held?);
    Ok(())
}

#[test]
fn repeats_an_interrupted_call(rt: HostRuntime) -> Result<(), Fail> {
    fs::write(&rt, "in", b"abcd")?;
    for (times, most, read, written) in [
        (1_000, 2, Ok(true), Ok(())),
        (1_001, 2, Err(HostFail::Failed), Err(HostFail::Failed)),
        (0, 0, Ok(false), Err(HostFail::Failed)),
    ] {
        let slow = Slow {
            rt: &rt,
            times,
            most,
        };
        let mut host = FileHost::new(&slow, rt.alloc());
        let held = holds(&mut host, "in", b"abcd");
        let wrote = writes(&mut host, "written", b"abcd");
        drop(host);
        assert!(rt; held == read);
        assert!(rt; wrote == written);
    }
    Ok(())
}

#[test]
fn serves_the_standard_streams(rt: HostRuntime) -> Result<(), Fail> {
    let slow = Slow {
        rt: &rt,
        times: 0,
        most: 2,
    };
    let mut host = FileHost::new(&slow, rt.alloc());
    let held = holds(&mut host, "-", b"0123456789");
    let written = writes(&mut host, "-", b"abcde");
    drop(host);
    assert!(rt; held?);
    written?;
    assert!(rt; fs::read(&rt, "standard")?.as_slice() == b"abcde".as_slice());
    Ok(())
}
