ghost use Rattle.std.specs.Prelude.{◌≡◌, ◌<◌, ◌≤◌, ◌^◌, ℕ, List, Option, Some, length, take, IfOk, OnErr, IfSome, IsSome, IsErrOf};
ghost use Rattle.std.specs.Io.KnownBytes.{IsAtEnd};
ghost use Rattle.npd_host.specs.declared.host.CallKind.{CallKind};
ghost use Rattle.npd_host.specs.Host.{Inputs, Outputs, OpensInput, OpensOutput, Gave, Took, CountRose, MovesInputsOnly, MovesOutputsOnly};

use db_model::NoMemory;

/// An input that a host opened.
#[derive(Clone, Copy, Debug, PartialEq, Eq)]
pub struct InId(pub u64);

/// An output that a host opened.
#[derive(Clone, Copy, Debug, PartialEq, Eq)]
pub struct OutId(pub u64);

/// The four kinds of call on a host.
#[derive(Clone, Copy, Debug, PartialEq, Eq)]
pub enum CallKind {
    OpenIn,
    Read,
    OpenOut,
    Write,
}

/// Why a call on a host was refused.
#[derive(Clone, Copy, Debug, PartialEq, Eq)]
pub enum HostFail {
    /// The host could not do it: the count of the call's kind and name rose.
    Failed,
    NoMemory,
}

impl From<NoMemory> for HostFail {
    ghost use Rattle.npd_host.specs.declared.host.HostFail.{HostFail};

    ghost from_gives = { λ _ fail. fail ≡ HostFail.NoMemory };

    fn from(_: NoMemory) -> HostFail {
        HostFail::NoMemory
    }
}

/// Named inputs and outputs. The name `-` is standard input or standard output.
///
/// A refused call moves no byte and gives no id. What a call gives or takes is that of its own id; every
/// other id is left as it was.
pub trait Host {
    /// The inputs: the names that were opened, in order, and what each id gives.
    ghost inputs: { Self → Inputs };

    /// The outputs: the names that were opened, in order, and what each id has taken.
    ghost outputs: { Self → Outputs };

    /// The bytes of each input by name, where they are told. No call changes them.
    ghost files: { Self → List ℕ → Option (List ℕ) };

    /// How often each kind of call has failed on each name. No count falls.
    ghost faults: { Self → CallKind → List ℕ → ℕ };

    /// Opens an input at its first byte.
    fn open_in(&mut self, name: &str) -> Result<InId, HostFail>
        ensures given { IfOk result (λ id.
            OpensInput (inputs self.old) (inputs self.new) id.0 name.now
            (files self.old name.now)) }
        ensures refused { OnErr result (inputs self.new ≡ inputs self.old) }
        ensures frame { MovesInputsOnly outputs files faults self.old self.new }
        ensures cause { IsErrOf result HostFail.Failed
            → CountRose CallKind.OpenIn (Some name.now) faults self.old self.new };

    /// Puts bytes of an input at the front of `buf` and says how many. 0 is the end of the input.
    fn read(&mut self, id: InId, buf: &mut [u8]) -> Result<usize, HostFail>
        requires given { IsSome ((inputs self.old).name id.0) }
        requires room { 0 < length buf.old }
        ensures bound { IfOk result (λ n. n ≤ length buf.new) }
        ensures gave { IfOk result (λ n.
            Gave id.0 (inputs self.old) (inputs self.new) (take n buf.new)) }
        ensures end { IfOk result (λ n. n ≡ 0 → IsAtEnd ((inputs self.new).held id.0)) }
        ensures refused { OnErr result (inputs self.new ≡ inputs self.old) }
        ensures frame { MovesInputsOnly outputs files faults self.old self.new }
        ensures cause { IsErrOf result HostFail.Failed
            → CountRose CallKind.Read ((inputs self.old).name id.0) faults self.old self.new };

    /// Begins an empty output.
    fn open_out(&mut self, name: &str) -> Result<OutId, HostFail>
        ensures given { IfOk result (λ id.
            OpensOutput (outputs self.old) (outputs self.new) id.0 name.now) }
        ensures refused { OnErr result (outputs self.new ≡ outputs self.old) }
        ensures frame { MovesOutputsOnly inputs files faults self.old self.new }
        ensures cause { IsErrOf result HostFail.Failed
            → CountRose CallKind.OpenOut (Some name.now) faults self.old self.new };

    /// Takes bytes from the front of `bytes`, at least one, and says how many.
    fn write(&mut self, id: OutId, bytes: &[u8]) -> Result<usize, HostFail>
        requires given { IsSome ((outputs self.old).name id.0) }
        requires some { 0 < length bytes.now }
        ensures bound { IfOk result (λ n. (0 < n) × (n ≤ length bytes.now)) }
        ensures took { IfOk result (λ n.
            Took id.0 (outputs self.old) (outputs self.new) (take n bytes.now)) }
        ensures refused { OnErr result (outputs self.new ≡ outputs self.old) }
        ensures frame { MovesOutputsOnly inputs files faults self.old self.new }
        ensures cause { IsErrOf result HostFail.Failed
            → CountRose CallKind.Write ((outputs self.old).name id.0) faults self.old self.new };

    /// What an input is told to hold has fewer than 2^64 bytes.
    ghost bounded: { (host : Self) (id : ℕ) → IfSome ((inputs host).held id) (λ bytes.
        length bytes < 2 ^ 64) };
}
