ghost use Rattle.std.specs.Prelude.{IsTrue, IsSome, IfOk};
ghost use Rattle.pcap_in.specs.Reader.{is_usable, is_reading, InReach};

use db_model::Packet;
use npd_host::{CallKind, Host, HostFail, MemHost};
use pcap_in::{CapFail, CapReader, Next};
use std::alloc::{AllocError, Global};
use std::test::Fail;

/// One capture in the four readings, of 59 bytes: a packet of 1 second and a fraction of 2, of which 3 bytes of 60 were
/// captured; an empty packet of 5 seconds and a fraction of 7. The link type is 1 in the low 16 bits.
const LITTLE_MICRO: &[u8] =
    b"\xd4\xc3\xb2\xa1\x02\x00\x04\x00\x00\x00\x00\x00\x00\x00\x00\x00\x00\x00\x04\x00\x01\x00\x01\x00\
\x01\x00\x00\x00\x02\x00\x00\x00\x03\x00\x00\x00\x3c\x00\x00\x00\xaa\xbb\xcc\
\x05\x00\x00\x00\x07\x00\x00\x00\x00\x00\x00\x00\x00\x00\x00\x00";

const LITTLE_NANO: &[u8] =
    b"\x4d\x3c\xb2\xa1\x02\x00\x04\x00\x00\x00\x00\x00\x00\x00\x00\x00\x00\x00\x04\x00\x01\x00\x01\x00\
\x01\x00\x00\x00\x02\x00\x00\x00\x03\x00\x00\x00\x3c\x00\x00\x00\xaa\xbb\xcc\
\x05\x00\x00\x00\x07\x00\x00\x00\x00\x00\x00\x00\x00\x00\x00\x00";

const BIG_MICRO: &[u8] =
    b"\xa1\xb2\xc3\xd4\x00\x02\x00\x04\x00\x00\x00\x00\x00\x00\x00\x00\x00\x04\x00\x00\x00\x01\x00\x01\
\x00\x00\x00\x01\x00\x00\x00\x02\x00\x00\x00\x03\x00\x00\x00\x3c\xaa\xbb\xcc\
\x00\x00\x00\x05\x00\x00\x00\x07\x00\x00\x00\x00\x00\x00\x00\x00";

const BIG_NANO: &[u8] =
    b"\xa1\xb2\x3c\x4d\x00\x02\x00\x04\x00\x00\x00\x00\x00\x00\x00\x00\x00\x04\x00\x00\x00\x01\x00\x01\
\x00\x00\x00\x01\x00\x00\x00\x02\x00\x00\x00\x03\x00\x00\x00\x3c\xaa\xbb\xcc\
\x00\x00\x00\x05\x00\x00\x00\x07\x00\x00\x00\x00\x00\x00\x00\x00";

/// How a capture ended, as far as it was read.
#[derive(Clone, Copy, PartialEq, Eq)]
enum End {
    Whole,
    Broken(u64, u8),
    ReadFault,
    NoMemory,
    /// Two answers don't agree, or a packet has another content.
    Torn,
    /// There were more packets.
    Open,
}

/// The stamps of the packets that were read, and the end.
#[derive(Drop)]
struct Read {
    stamps: Vec<u64>,
    end: End,
}

fn end_of(fail: &CapFail) -> End {
    match fail {
        CapFail::Broken { offset, code } => End::Broken(*offset, *code),
        CapFail::ReadFault => End::ReadFault,
        CapFail::NoMemory => End::NoMemory,
    }
}

/// The stamp of the first packet of the captures above, or of one of zeros.
fn stamp_of(packet: &Packet) -> Result<u64, End> {
    let bytes = packet.bytes.as_slice();
    let is_first = packet.number == 0 && packet.length == 60 && bytes == b"\xaa\xbb\xcc".as_slice();
    let is_zeros = packet.length == 0 && bytes.iter().all(|byte| *byte == 0);
    if packet.link == 1 && (is_first || is_zeros) {
        Ok(packet.stamp)
    } else {
        Err(End::Torn)
    }
}

/// Whether a byte follows, by two calls of `more`.
fn more_twice<H: Host>(host: &mut H, reader: &mut CapReader) -> Result<bool, End>
    requires reading { IsTrue (is_reading reader.old.state) }
    requires given { IsSome ((H.inputs host.old).name reader.old.id.0) }
    requires reach { InReach reader.old (H.inputs host.old) }
    ensures usable { IfOk result (λ _. IsTrue (is_usable reader.new.state)) }
    ensures given { IsSome ((H.inputs host.new).name reader.new.id.0) }
    ensures reach { InReach reader.new (H.inputs host.new) }
{
    match reader.more(host) {
        Ok(first) => match reader.more(host) {
            Ok(second) => if first == second {
                Ok(first)
            } else {
                Err(End::Torn)
            },
            Err(fail) => Err(end_of(&fail)),
        },
        Err(fail) => Err(end_of(&fail)),
    }
}

/// This end, where `next` gives it a second time, or can't be called again.
fn end_twice<H: Host>(host: &mut H, reader: &mut CapReader, end: End) -> End
    requires given { IsSome ((H.inputs host.old).name reader.old.id.0) }
    requires reach { InReach reader.old (H.inputs host.old) }
    ensures given { IsSome ((H.inputs host.new).name reader.new.id.0) }
    ensures reach { InReach reader.new (H.inputs host.new) }
{
    if !reader.usable() {
        return end;
    }
    let second = match reader.next(host) {
        Ok(Next::End) => End::Whole,
        Ok(Next::Packet(_)) => End::Torn,
        Err(fail) => end_of(&fail),
    };
    if second == end { end } else { End::Torn }
}

/// The stamp of the next packet, behind two calls of `more`; or the end.
fn step<H: Host>(host: &mut H, reader: &mut CapReader) -> Result<u64, End>
    requires reading { IsTrue (is_reading reader.old.state) }
    requires given { IsSome ((H.inputs host.old).name reader.old.id.0) }
    requires reach { InReach reader.old (H.inputs host.old) }
    ensures reading { IfOk result (λ _. IsTrue (is_reading reader.new.state)) }
    ensures given { IsSome ((H.inputs host.new).name reader.new.id.0) }
    ensures reach { InReach reader.new (H.inputs host.new) }
{
    let more = match more_twice(host, reader) {
        Ok(more) => more,
        Err(end) => return Err(end),
    };
    match reader.next(host) {
        Ok(Next::Packet(packet)) => stamp_of(&packet),
        Ok(Next::End) => Err(if more {
            End::Torn
        } else {
            end_twice(host, reader, End::Whole)
        }),
        Err(fail) => Err(end_twice(host, reader, end_of(&fail))),
    }
}

/// At most three steps.
fn steps<H: Host>(alloc: Global, host: &mut H, reader: &mut CapReader) -> Result<Read, HostFail>
    requires reading { IsTrue (is_reading reader.old.state) }
    requires given { IsSome ((H.inputs host.old).name reader.old.id.0) }
    requires reach { InReach reader.old (H.inputs host.old) }
{
    let mut stamps = Vec::new(alloc);
    for _count in 0..3 {
        match step(host, reader) {
            Ok(stamp) => match stamps.push(stamp) {
                Ok(()) => {}
                Err(_) => return Err(HostFail::NoMemory),
            },
            Err(end) => return Ok(Read { stamps, end }),
        }
    }
    let end = End::Open;
    Ok(Read { stamps, end })
}

/// What is read of the capture that a host has.
fn read_of<H: Host>(alloc: Global, host: &mut H) -> Result<Read, HostFail> {
    let id = host.open_in("cap")?;
    match CapReader::begin(alloc, host, id) {
        Ok(mut reader) => steps(alloc, host, &mut reader),
        Err(fail) => Ok(Read {
            stamps: Vec::new(alloc),
            end: end_of(&fail),
        }),
    }
}

/// What is read of these bytes by reads of at most `chunk`, of which the one of this number fails.
fn read_bytes(alloc: Global, bytes: &[u8], chunk: u32, failing: u64) -> Result<Read, HostFail> {
    let mut host = MemHost::new(alloc, chunk.max(1))?;
    host.put_file("cap", bytes)?;
    host.fail(CallKind::Read, failing)?;
    read_of(alloc, &mut host)
}

/// No read has this number.
const NONE: u64 = 1_000_000;

/// The number of whole packets in a capture above that is cut to this length, and its end.
fn cut_at(length: usize) -> (usize, End) {
    match length {
        0..=23 => (0, End::Broken(0, 1)),
        24 => (0, End::Whole),
        25..=39 => (0, End::Broken(24, 4)),
        40..=42 => (0, End::Broken(24, 6)),
        43 => (1, End::Whole),
        44..=58 => (1, End::Broken(43, 4)),
        _ => (2, End::Whole),
    }
}

/// Whether the capture is read right at this length, by reads of at most `chunk` bytes.
fn is_cut_right(
    alloc: Global,
    capture: &[u8],
    length: usize,
    chunk: u32,
    stamps: &[u64],
) -> Result<bool, HostFail> {
    let (count, end) = cut_at(length);
    let read = read_bytes(alloc, &capture[..length.min(capture.len())], chunk, NONE)?;
    Ok(read.end == end && read.stamps.as_slice() == &stamps[..count.min(stamps.len())])
}

#[test]
fn reads_each_form_cut_at_each_length(rt: HostRuntime) -> Result<(), Fail> {
    let micro = [1_000_002_000, 5_000_007_000];
    let nano = [1_000_000_002, 5_000_000_007];
    for (capture, stamps) in [
        (LITTLE_MICRO, micro),
        (LITTLE_NANO, nano),
        (BIG_MICRO, micro),
        (BIG_NANO, nano),
    ] {
        for length in 0..60 {
            assert!(rt; is_cut_right(rt.alloc(), capture, length, 1, &stamps)?);
            assert!(rt; is_cut_right(rt.alloc(), capture, length, 7, &stamps)?);
        }
    }
    Ok(())
}

/// The end of the little-endian capture with microseconds, where four bytes from a place on are others.
fn end_with(alloc: Global, at: usize, bytes: [u8; 4]) -> Result<End, HostFail> {
    let mut capture = [0u8; 59];
    capture.copy_from_slice(LITTLE_MICRO);
    let at = at.min(55);
    capture[at..at + 4].copy_from_slice(&bytes);
    Ok(read_bytes(alloc, &capture, 7, NONE)?.end)
}

#[test]
fn tells_what_is_broken(rt: HostRuntime) -> Result<(), Fail> {
    for (at, bytes, wanted) in [
        // the magic number, and that of another byte order
        (0, [0xD4, 0xC3, 0xB2, 0xA0], End::Broken(0, 2)),
        (0, [0xA1, 0xB2, 0xC3, 0xD4], End::Broken(4, 3)),
        // the version
        (4, [1, 0, 4, 0], End::Broken(4, 3)),
        (4, [2, 0, 0, 0], End::Whole),
        // the snapshot length, and a fraction of a second
        (16, [0, 0, 0, 0], End::Whole),
        (28, [0xFF, 0xFF, 0xFF, 0xFF], End::Whole),
        // the captured length of each record
        (32, [1, 0, 4, 0], End::Broken(24, 5)),
        (32, [0, 0, 4, 0], End::Broken(24, 6)),
        (51, [1, 0, 4, 0], End::Broken(43, 5)),
        (51, [0, 0, 4, 0], End::Broken(43, 6)),
        (51, [1, 0, 0, 0], End::Broken(43, 6)),
    ] {
        assert!(rt; end_with(rt.alloc(), at, bytes)? == wanted);
    }
    Ok(())
}

/// How many packets were read where a read of this number fails, and the end.
fn read_failing(alloc: Global, failing: u64) -> Result<(usize, End), HostFail> {
    let read = read_bytes(alloc, LITTLE_MICRO, 100, failing)?;
    Ok((read.stamps.len(), read.end))
}

#[test]
fn tells_a_read_fault(rt: HostRuntime) -> Result<(), Fail> {
    for (failing, count) in [
        (0, 0),
        (1, 0),
        (2, 0),
        (3, 0),
        (4, 1),
        (5, 1),
        (6, 2),
        (7, 2),
    ] {
        let (read, end) = read_failing(rt.alloc(), failing)?;
        assert!(rt; read == count && end == End::ReadFault);
    }
    Ok(())
}

/// Whether one packet is read of a big-endian capture with nanoseconds, which has this stamp.
fn is_one(alloc: Global, capture: &[u8], stamp: u64) -> Result<bool, HostFail> {
    let read = read_bytes(alloc, capture, 65_536, NONE)?;
    Ok(read.end == End::Whole && read.stamps.as_slice() == [stamp].as_slice())
}

#[test]
fn reads_an_empty_packet(rt: HostRuntime) -> Result<(), Fail> {
    let capture =
        b"\xa1\xb2\x3c\x4d\x00\x02\x00\x04\x00\x00\x00\x00\x00\x00\x00\x00\x00\x04\x00\x00\x00\x00\x00\x01\
\x00\x00\x00\x05\x00\x00\x00\x07\x00\x00\x00\x00\x00\x00\x00\x00";
    assert!(rt; is_one(rt.alloc(), capture, 5_000_000_007)?);
    Ok(())
}

/// A file header, a record's head and so many zeros.
fn with_zeros(
    alloc: Global,
    header: &[u8],
    head: &[u8],
    count: usize,
) -> Result<Vec<u8>, AllocError> {
    let zeros = vec![in alloc; 0u8; count]?;
    let mut capture = Vec::from_slice(alloc, header)?;
    capture.extend_from_slice(head)?;
    capture.extend_from_slice(zeros.as_slice())?;
    Ok(capture)
}

#[test]
fn reads_the_longest_packet(rt: HostRuntime) -> Result<(), Fail> {
    let head = b"\x00\x00\x00\x05\x00\x00\x00\x07\x00\x04\x00\x00\x00\x00\x00\x00";
    let capture = with_zeros(rt.alloc(), &BIG_NANO[..24], head, 262_144)?;
    assert!(rt; is_one(rt.alloc(), capture.as_slice(), 5_000_000_007)?);
    Ok(())
}
