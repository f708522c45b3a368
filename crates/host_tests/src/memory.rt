use crate::steps::{first_write, three_reads, writes};
use npd_host::{CallKind, Host, HostFail, MemHost};
use std::alloc::Global;
use std::test::Fail;

/// What three reads give of a file that was replaced before it was opened.
fn three_of(alloc: Global, chunk: u32, bytes: &[u8]) -> Result<Vec<u8>, HostFail> {
    let mut host = MemHost::new(alloc, chunk.max(1))?;
    let read = three_of_replaced(alloc, &mut host, bytes);
    drop(host);
    read
}

fn three_of_replaced(alloc: Global, host: &mut MemHost, bytes: &[u8]) -> Result<Vec<u8>, HostFail> {
    host.put_file("cap", b"old")?;
    host.put_file("cap", bytes)?;
    three_reads(alloc, host, "cap", 16)
}

#[test]
fn reads_by_chunks(rt: HostRuntime) -> Result<(), Fail> {
    for (chunk, bytes, wanted) in [
        (7, "0123456789", "0123456789"),
        (1, "abcd", "abc"),
        (9, "", ""),
    ] {
        assert!(rt; three_of(rt.alloc(), chunk, bytes.as_bytes())?.as_slice() == wanted.as_bytes());
    }
    Ok(())
}

fn is_written(host: &MemHost, name: &str, bytes: Option<&[u8]>) -> bool {
    host.written(name) == bytes
}

/// Writes two outputs, one of them twice.
fn write_outputs(host: &mut MemHost) -> Result<(), HostFail> {
    for (name, bytes) in [("pdml", "<pdml>"), ("psml", "<psml>"), ("pdml", "abc")] {
        writes(host, name, bytes.as_bytes())?;
    }
    Ok(())
}

#[test]
fn keeps_what_is_written(rt: HostRuntime) -> Result<(), Fail> {
    let mut host = MemHost::new(rt.alloc(), 1)?;
    let written = write_outputs(&mut host);
    let is_kept = is_written(&host, "pdml", Some(b"abc"))
        && is_written(&host, "psml", Some(b"<psml>"))
        && is_written(&host, "trace", None);
    drop(host);
    written?;
    assert!(rt; is_kept);
    Ok(())
}

/// Which of four calls on a host fail: opening an input, reading from it, opening an output, writing to it.
fn failing(host: &mut MemHost) -> [bool; 4] {
    let mut buf = [0u8; 4];
    let mut failed = [true; 4];
    if let Ok(id) = host.open_in("cap") {
        failed[0] = false;
        failed[1] = host.read(id, &mut buf) == Err(HostFail::Failed);
    }
    if let Ok(id) = host.open_out("out") {
        failed[2] = false;
        failed[3] = host.write(id, b"x") == Err(HostFail::Failed);
    }
    failed
}

fn failing_by_turns(alloc: Global, kind: CallKind, nth: u64) -> Result<[[bool; 4]; 2], HostFail> {
    let mut host = MemHost::new(alloc, 4)?;
    let turns = two_turns(&mut host, kind, nth);
    drop(host);
    turns
}

fn two_turns(host: &mut MemHost, kind: CallKind, nth: u64) -> Result<[[bool; 4]; 2], HostFail> {
    host.put_file("cap", b"ab")?;
    host.fail(kind, nth)?;
    let first = failing(host);
    Ok([first, failing(host)])
}

#[test]
fn fails_as_it_was_told(rt: HostRuntime) -> Result<(), Fail> {
    let none = [false; 4];
    for (kind, nth, turns) in [
        (CallKind::OpenIn, 1, [none, [true, true, false, false]]),
        (CallKind::Read, 0, [[false, true, false, false], none]),
        (CallKind::OpenOut, 1, [none, [false, false, true, true]]),
        (CallKind::Write, 0, [[false, false, false, true], none]),
    ] {
        assert!(rt; failing_by_turns(rt.alloc(), kind, nth)? == turns);
    }
    Ok(())
}

#[test]
fn misses_an_input(rt: HostRuntime) -> Result<(), Fail> {
    let mut host = MemHost::new(rt.alloc(), 4)?;
    let read = three_reads(rt.alloc(), &mut host, "db", 4);
    let taken = first_write(&mut host, "out", b"abc");
    drop(host);
    assert!(rt; read.is_err());
    assert!(rt; taken? == 3);
    Ok(())
}
