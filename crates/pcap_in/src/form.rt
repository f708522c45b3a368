ghost use Rattle.std.specs.Prelude.{◌≡◌, ◌<◌, ◌≤◌, ◌*◌, ◌^◌, drop, length};
ghost use Rattle.pcap_in.specs.Capture.{number_in, resolution_by, nanoseconds_in, form_by, header};
ghost use Rattle.pcap_in.specs.Reading.{HeaderIs};

use crate::fail::CapFail;
use byteorder::{BigEndian, ByteOrder, LittleEndian};

/// The length in bytes of a capture's file header.
pub const HEADER: usize = 24;

/// The order of the bytes in each number of a capture.
#[derive(Clone, Copy)]
pub enum Endian {
    Little,
    Big,
}

/// What the fraction of a second counts.
#[derive(Clone, Copy)]
pub enum Resolution {
    Microseconds,
    Nanoseconds,
}

/// What the file header says of each record.
#[derive(Clone, Copy)]
pub struct Form {
    pub endian: Endian,
    pub resolution: Resolution,
    /// The link type of the packets: the low 16 bits of the header's.
    pub link: u16,
}

/// The number in the first two bytes.
fn number16(endian: Endian, bytes: &[u8]) -> u16
    requires { 2 ≤ length bytes.now }
    ensures { result ≡ number_in endian 2 bytes.now }
{
    match endian {
        Endian::Little => LittleEndian::read_u16(bytes),
        Endian::Big => BigEndian::read_u16(bytes),
    }
}

/// The number in the first four bytes.
pub fn number32(endian: Endian, bytes: &[u8]) -> u32
    requires { 4 ≤ length bytes.now }
    ensures { result ≡ number_in endian 4 bytes.now }
{
    match endian {
        Endian::Little => LittleEndian::read_u32(bytes),
        Endian::Big => BigEndian::read_u32(bytes),
    }
}

/// What the fraction counts in a capture with this magic number; none where it is no magic number.
fn resolution_by(magic: u32) -> Option<Resolution>
    ensures { result ≡ resolution_by magic }
{
    match magic {
        0xA1B2_C3D4 => Some(Resolution::Microseconds),
        0xA1B2_3C4D => Some(Resolution::Nanoseconds),
        _ => None,
    }
}

/// A fraction of a second in nanoseconds. It may come to more than a second.
pub fn nanoseconds(resolution: Resolution, fraction: u32) -> u64
    ensures value { result ≡ nanoseconds_in resolution fraction }
    ensures bound { result < 1000 * 2 ^ 32 }
{
    let fraction = u64::from(fraction);
    match resolution {
        Resolution::Microseconds => fraction * 1_000,
        Resolution::Nanoseconds => fraction,
    }
}

/// The form that a file header gives where its numbers stand in this order; none where its magic number doesn't.
fn form_by(endian: Endian, head: &[u8]) -> Option<Form>
    requires { length head.now ≡ 24 }
    ensures { result ≡ form_by endian head.now }
{
    let resolution = resolution_by(number32(endian, head))?;
    let link = number32(endian, &head[20..]);
    Some(Form {
        endian,
        resolution,
        link: (link & 0xFFFF) as u16,
    })
}

/// The form of the records behind this file header, or where that is broken.
pub fn form_in(head: &[u8]) -> Result<Form, CapFail>
    requires { length head.now ≡ 24 }
    ensures { HeaderIs result (header head.now) }
{
    let Some(form) = form_by(Endian::Little, head).or(form_by(Endian::Big, head)) else {
        return Err(CapFail::Broken { offset: 0, code: 2 });
    };
    if number16(form.endian, &head[4..]) != 2 {
        return Err(CapFail::Broken { offset: 4, code: 3 });
    }
    Ok(form)
}
