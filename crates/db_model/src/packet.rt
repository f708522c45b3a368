use crate::Bytes;

/// A moment, in nanoseconds since the epoch of its capture. The captures read here give none of
/// 4.3 * 10^18 or more.
pub type Stamp = u64;

/// One captured packet.
#[derive(Clone, Drop)]
pub struct Packet {
    /// Its place in the capture, from 0.
    pub number: u64,
    /// The link type: the low 16 bits of the capture's.
    pub link: u16,
    pub stamp: Stamp,
    /// The length in bytes that it had on the wire, which may be below or above the captured one.
    pub length: u32,
    /// The captured bytes.
    pub bytes: Bytes,
}
