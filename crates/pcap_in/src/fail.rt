ghost use Rattle.std.specs.Prelude.{◌≡◌};

use npd_host::HostFail;
use thiserror::Error;

/// Why a capture gave no packet.
#[derive(Debug, Drop, Error)]
pub enum CapFail {
    /// The bytes are no capture from this offset on, which is 0 for a file header or 4 for its version, and else
    /// that of a record. The code says why:
    ///
    /// | Code | What is broken |
    /// |---|---|
    /// | 1 | the file has fewer than 24 bytes |
    /// | 2 | the magic number is none |
    /// | 3 | the major version isn't 2 |
    /// | 4 | 1 to 15 bytes follow where a record begins |
    /// | 5 | the captured length is above 262,144 |
    /// | 6 | fewer captured bytes follow than the length says |
    ///
    /// It is answered again by each later `next`.
    #[error("the capture is broken")]
    Broken { offset: u64, code: u8 },
    /// The host could not read the input.
    #[error("the capture could not be read")]
    ReadFault,
    #[error("out of memory")]
    NoMemory,
}

impl From<HostFail> for CapFail {
    ghost use Rattle.pcap_in.specs.Fail.{cap_fail_of};

    ghost from_gives = { λ fail e. e ≡ cap_fail_of fail };

    fn from(fail: HostFail) -> CapFail {
        match fail {
            HostFail::Failed => CapFail::ReadFault,
            HostFail::NoMemory => CapFail::NoMemory,
        }
    }
}
