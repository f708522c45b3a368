//! Reads of every size, large ones between small ones, over a file that is longer than what is read ahead of it.

ghost use Rattle.std.specs.Prelude.{IsSome};

use crate::steps::input;
use npd_host::{FileHost, Host, HostFail, InId};
use std::alloc::{AllocError, Global};
use std::fs;
use std::rt::Files;
use std::test::Fail;

/// How long the file is, and the largest read.
const LENGTH: usize = 60_000;

const LARGEST: usize = 20_000;

/// The bytes of the file. No two places have the same bytes behind them.
fn pattern(alloc: Global) -> Result<Vec<u8>, AllocError> {
    let mut bytes = Vec::with_capacity(alloc, LENGTH)?;
    for place in 0..LENGTH {
        bytes.push(((place % 251 + place / 251) % 256) as u8)?;
    }
    Ok(bytes)
}

/// A quarter of the sizes: every fourth one from 1, 2, 3 or 4 on.
const SIZES: usize = LARGEST / 4;

/// The size of a read: each one of a quarter once in as many reads, large ones between small ones.
fn size(quarter: usize, number: usize) -> usize {
    let place = (number % SIZES).saturating_mul(1_979) % SIZES;
    place * 4 + quarter % 4 + 1
}

/// Reads once, with so much room, and takes from `rest` what was read. False: it isn't what stands there, or nothing
/// was read.
fn takes<H: Host>(
    host: &mut H,
    id: InId,
    buf: &mut [u8],
    rest: &mut &[u8],
) -> Result<bool, HostFail>
    requires { IsSome ((H.inputs host.old).name id.0) }
    ensures { IsSome ((H.inputs host.new).name id.0) }
{
    if buf.is_empty() {
        return Ok(false);
    }
    let count = host.read(id, buf)?;
    let (next, behind) = rest.split_at(count.min(rest.len()));
    if count == 0 || next != &buf[..count] {
        return Ok(false);
    }
    *rest = behind;
    Ok(true)
}

/// Reads the file once, by the sizes of a quarter from this number on, and gives the number of the first read that isn't
/// made; the same number, where another byte came or the end too early.
fn reads_all<H: Host>(
    host: &mut H,
    buf: &mut [u8],
    bytes: &[u8],
    quarter: usize,
    first: usize,
) -> Result<usize, HostFail> {
    let id = input(host, "sizes")?;
    let mut rest = bytes;
    let mut number = first;
    for _ in 0..=LENGTH {
        let room = size(quarter, number).min(buf.len());
        if !takes(host, id, &mut buf[..room], &mut rest)? {
            break;
        }
        number = number.saturating_add(1);
    }
    Ok(if rest.is_empty() { number } else { first })
}

/// Whether reads of all sizes of a quarter give the bytes of the file, which is opened anew where it ends.
fn gives_the_bytes(
    rt: &(impl Files + Input + Print + AllocGlobal),
    quarter: usize,
) -> Result<bool, Fail> {
    let bytes = pattern(rt.alloc())?;
    fs::write(rt, "sizes", bytes.as_slice())?;
    let mut buf = vec![in rt.alloc(); 0u8; LARGEST]?;
    let mut number = 0;
    for _ in 0..SIZES {
        if number >= SIZES {
            break;
        }
        let mut host = FileHost::new(rt, rt.alloc());
        let read = reads_all(
            &mut host,
            buf.as_mut_slice(),
            bytes.as_slice(),
            quarter,
            number,
        );
        drop(host);
        let next = read?;
        if next == number {
            break;
        }
        number = next;
    }
    Ok(number >= SIZES)
}

#[test]
fn gives_the_bytes_by_the_first_sizes(rt: HostRuntime) -> Result<(), Fail> {
    assert!(rt; gives_the_bytes(&rt, 0)?);
    Ok(())
}

#[test]
fn gives_the_bytes_by_the_second_sizes(rt: HostRuntime) -> Result<(), Fail> {
    assert!(rt; gives_the_bytes(&rt, 1)?);
    Ok(())
}

#[test]
fn gives_the_bytes_by_the_third_sizes(rt: HostRuntime) -> Result<(), Fail> {
    assert!(rt; gives_the_bytes(&rt, 2)?);
    Ok(())
}

#[test]
fn gives_the_bytes_by_the_fourth_sizes(rt: HostRuntime) -> Result<(), Fail> {
    assert!(rt; gives_the_bytes(&rt, 3)?);
    Ok(())
}
