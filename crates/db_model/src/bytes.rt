ghost use Rattle.std.specs.Prelude.{◌≡◌, ◌≤◌, length, IfOk, vec_len};

use crate::NoMemory;
use std::alloc::{AllocError, Global};
use std::marker::Model;

/// The most bytes that a `Bytes` holds: as many as a record of a capture may have.
pub const MOST_BYTES: usize = 262_144;

/// The most bytes that a `Bytes` keeps in the value itself, for which it takes no memory.
pub const MOST_SHORT: usize = 24;

/// As many bytes of these as `len` says, from the first on.
#[derive(Clone, Copy)]
struct Few {
    bytes: [u8; MOST_SHORT],
    len: u8,
}

/// Few bytes lie in the value itself, more of them in memory of their own.
#[derive(Drop)]
enum Held {
    Short(Few),
    Long(Vec<u8>),
}

/// At most `MOST_BYTES` bytes, seen as their list. A short value, of at most 24 bytes, takes no memory of its own.
#[derive(Drop)]
pub struct Bytes {
    held: Held,
}

impl Model for Bytes {
    ghost use Rattle.std.specs.Prelude.{List, ℕ};
    ghost use Rattle.db_model.specs.Bytes.{bytes_held, IsHeld};

    ghost Value = { List ℕ };

    ghost view = { λ b. bytes_held b.held };

    ghost invariant = { λ b. IsHeld b.held };
}

impl Clone for Bytes {
    ghost is_clone = { λ b copy. copy ≡ b };

    fn clone(&self) -> Result<Bytes, AllocError> {
        match &self.held {
            Held::Short(few) => Ok(Bytes {
                held: Held::Short(*few),
            }),
            Held::Long(bytes) => Ok(Bytes {
                held: Held::Long(Vec::from_slice(*bytes.allocator(), bytes.as_slice())?),
            }),
        }
    }
}

impl PartialEq for Bytes {
    ghost use Rattle.std.specs.Prelude.{bytes_eq};
    ghost use Rattle.std.specs.Cmp.Rules.{comparing};
    ghost use Rattle.std.proofs.Common.{rules};

    ghost eq = { bytes_eq };

    ghost laws = { Prim.search (comparing, rules) };

    fn eq(&self, other: &Bytes) -> bool {
        self.as_slice() == other.as_slice()
    }
}

impl Bytes {
    /// Takes no memory.
    pub fn short(bytes: &[u8]) -> Bytes
        requires { length bytes.now ≤ MOST_SHORT }
        ensures { result ≡ bytes.now }
    {
        let mut all = [0; MOST_SHORT];
        all[..bytes.len()].copy_from_slice(bytes);
        Bytes {
            held: Held::Short(Few {
                bytes: all,
                len: bytes.len() as u8,
            }),
        }
    }

    /// Takes no memory.
    pub fn from_vec(bytes: Vec<u8>) -> Bytes
        requires { vec_len bytes ≤ MOST_BYTES }
        ensures { result ≡ bytes.items }
    {
        if bytes.len() <= MOST_SHORT {
            Bytes::short(bytes.as_slice())
        } else {
            Bytes {
                held: Held::Long(bytes),
            }
        }
    }

    /// Takes no memory for a short value.
    pub fn copy_of(alloc: Global, bytes: &[u8]) -> Result<Bytes, NoMemory>
        requires { length bytes.now ≤ MOST_BYTES }
        ensures { IfOk result (λ b. b ≡ bytes.now) }
    {
        if bytes.len() <= MOST_SHORT {
            Ok(Bytes::short(bytes))
        } else {
            Ok(Bytes {
                held: Held::Long(Vec::from_slice(alloc, bytes)?),
            })
        }
    }

    pub fn as_slice(&self) -> &[u8]
        ensures bytes { result.now ≡ self.now }
        ensures bound { length self.now ≤ MOST_BYTES }
    {
        match &self.held {
            Held::Short(few) => &few.bytes[..few.len as usize],
            Held::Long(bytes) => bytes.as_slice(),
        }
    }
}

/// Bytes without a bound of their own, seen as their list.
#[derive(Drop)]
pub struct Bytes64 {
    bytes: Vec<u8>,
}

impl Model for Bytes64 {
    ghost use Rattle.std.specs.Prelude.{List, ℕ};

    ghost Value = { List ℕ };

    ghost view = { λ b. b.bytes.items };
}

impl Bytes64 {
    /// Takes no memory.
    pub fn from_vec(bytes: Vec<u8>) -> Bytes64
        ensures { result ≡ bytes.items }
    {
        Bytes64 { bytes }
    }

    pub fn as_slice(&self) -> &[u8]
        ensures { result.now ≡ self.now }
    {
        self.bytes.as_slice()
    }
}
