ghost use Rattle.std.specs.Prelude.{◌≡◌, ◌<◌, ◌≤◌, ◌⊎◌, ◌++◌, ◌∷◌, [], min, None, Some, IfOk, OnOk, OnErr, IsSome, IsSomeAnd, IsErr, IsErrOf, IsOk, IsOkAnd, IsOkUnless, MatchOption, length, take};
ghost use Rattle.std.specs.Io.KnownBytes.{IsAtEnd};
ghost use Rattle.npd_host.specs.declared.memory.calls.PlannedCall.{PlannedCall};
ghost use Rattle.npd_host.specs.Host.{OpensInput, OpensOutput, Gave, Took, CountRose, MovesInputsOnly, MovesOutputsOnly};
ghost use Rattle.npd_host.specs.Named.{Puts};
ghost use Rattle.npd_host.specs.MemHost.{new_host, host_inputs, host_outputs, host_files, host_faults, inputs_at-bounded, IsDue, after_call, NoneNamed, LastNamed};

mod calls;
mod files;
mod input;
mod inputs;
mod named;
mod outputs;

use crate::counts::Counts;
use crate::host::{CallKind, Host, HostFail, InId, OutId};
use calls::{FailedCall, PlannedCall, is_due, note};
use db_model::NoMemory;
use input::Input;
use named::NamedBytes;
use std::alloc::Global;
use std::marker::Model;

/// A host in memory, which fails as it was told and where an input is missing. It tells everything.
/// An id is the place in the list of its inputs or of its outputs.
#[derive(Drop)]
pub struct MemHost {
    alloc: Global,
    chunk: u32,
    files: Vec<NamedBytes>,
    inputs: Vec<Input>,
    outputs: Vec<NamedBytes>,
    planned: Vec<PlannedCall>,
    calls: Counts,
    failed: Vec<FailedCall>,
}

impl Model for MemHost {
    ghost use Rattle.std.specs.Prelude.{◌<◌};
    ghost use Rattle.npd_host.specs.MemHost.{HostState};

    ghost Value = { HostState };

    ghost view = { λ host. record {
      chunk = host.chunk;
      files = host.files.items;
      inputs = host.inputs.items;
      outputs = host.outputs.items;
      planned = host.planned.items;
      calls = host.calls;
      failed = host.failed.items;
    } };

    ghost invariant = { λ host. 0 < host.chunk };
}

impl MemHost {
    /// A host without files, whose reads give at most `chunk` bytes. Takes no memory, so it is always `Ok`.
    pub fn new(alloc: Global, chunk: u32) -> Result<MemHost, NoMemory>
        requires { 0 < chunk }
        ensures { IsOkAnd result (λ host. host ≡ new_host chunk) }
    {
        Ok(MemHost {
            alloc,
            chunk,
            files: Vec::new(alloc),
            inputs: Vec::new(alloc),
            outputs: Vec::new(alloc),
            planned: Vec::new(alloc),
            calls: Counts::ZERO,
            failed: Vec::new(alloc),
        })
    }

    /// Adds an input, or replaces the one of that name. An input that is open still holds what it held.
    pub fn put_file(&mut self, name: &str, bytes: &[u8]) -> Result<(), NoMemory>
        ensures put { OnOk result
            (Puts (host_files self.old) (host_files self.new) name.now bytes.now) }
        ensures rest { self.new ≡ record self.old { files = self.new.files } }
        ensures left { OnErr result (self.new ≡ self.old) }
    {
        files::put(self.alloc, &mut self.files, name, bytes)
    }

    /// Lets the call numbered `nth` of this kind fail. The calls of each kind are numbered from 0 over the
    /// host's life.
    pub fn fail(&mut self, kind: CallKind, nth: u64) -> Result<(), NoMemory>
        ensures planned { let call : PlannedCall = record { kind = kind; nth = nth } in
            OnOk result (self.new ≡ record self.old { planned = self.old.planned ++ call ∷ [] }) }
        ensures left { OnErr result (self.new ≡ self.old) }
    {
        self.planned.push(PlannedCall { kind, nth })?;
        Ok(())
    }

    /// What the output of that name that was opened last has taken.
    pub fn written(&self, name: &str) -> Option<&[u8]>
        ensures { MatchOption result (NoneNamed (host_outputs self.now) name.now) (λ bytes.
            LastNamed (host_outputs self.now) name.now bytes.now) }
    {
        outputs::last(&self.outputs, name)
    }
}

impl Host for MemHost {
    ghost inputs = { host_inputs };

    ghost outputs = { host_outputs };

    ghost files = { host_files };

    ghost faults = { host_faults };

    ghost bounded = { λ host. inputs_at-bounded host.inputs };

    fn open_in(&mut self, name: &str) -> Result<InId, HostFail>
        ensures given { IfOk result (λ id.
            OpensInput (host_inputs self.old) (host_inputs self.new) id.0
            name.now (host_files self.old name.now)) }
        ensures refused { OnErr result (host_inputs self.new ≡ host_inputs self.old) }
        ensures frame { MovesInputsOnly host_outputs host_files host_faults self.old self.new }
        ensures cause { IsErrOf result HostFail.Failed
            → CountRose CallKind.OpenIn (Some name.now) host_faults self.old self.new }

        // Beyond what every host keeps: it fails where it was told, and nowhere else.
        ensures place { IfOk result (λ id. id.0 ≡ length self.old.inputs) }
        ensures only_told { IsErrOf result HostFail.Failed
            → IsDue CallKind.OpenIn self.old ⊎ (host_files self.old name.now ≡ None) }
        ensures as_told { IsDue CallKind.OpenIn self.old ⊎ (host_files self.old name.now ≡ None)
            → IsErr result }
        ensures left { OnErr result (self.new.inputs ≡ self.old.inputs) }
        ensures rest { self.new
            ≡ record (after_call CallKind.OpenIn (Some name.now) result self.old) {
              inputs = self.new.inputs;
            } }
        ensures sure { (self.old.planned ≡ []) × IsSome (host_files self.old name.now)
            → IsOkUnless result HostFail.NoMemory × (self.new.failed ≡ self.old.failed) }
    {
        if is_due(&self.planned, &mut self.calls, CallKind::OpenIn) {
            return Err(note(self.alloc, &mut self.failed, CallKind::OpenIn, name));
        }
        match files::find(&self.files, name) {
            Some(bytes) => Ok(inputs::push(self.alloc, &mut self.inputs, name, bytes)?),
            None => Err(note(self.alloc, &mut self.failed, CallKind::OpenIn, name)),
        }
    }

    fn read(&mut self, id: InId, buf: &mut [u8]) -> Result<usize, HostFail>
        requires given { IsSome ((host_inputs self.old).name id.0) }
        requires room { 0 < length buf.old }
        ensures bound { IfOk result (λ n. n ≤ length buf.new) }
        ensures gave { IfOk result (λ n.
            Gave id.0 (host_inputs self.old) (host_inputs self.new) (take n buf.new)) }
        ensures end { IfOk result (λ n. n ≡ 0 → IsAtEnd ((host_inputs self.new).held id.0)) }
        ensures refused { OnErr result (host_inputs self.new ≡ host_inputs self.old) }
        ensures frame { MovesInputsOnly host_outputs host_files host_faults self.old self.new }
        ensures cause { IsErrOf result HostFail.Failed
            → CountRose CallKind.Read ((host_inputs self.old).name id.0)
            host_faults self.old self.new }

        // Beyond what every host keeps: it fails where it was told, and nowhere else.
        ensures amount { IfOk result (λ n. IsSomeAnd ((host_inputs self.old).held id.0) (λ bytes.
            n ≡ min (min self.old.chunk (length buf.new)) (length bytes))) }
        ensures only_told { IsErrOf result HostFail.Failed → IsDue CallKind.Read self.old }
        ensures as_told { IsDue CallKind.Read self.old → IsErr result }
        ensures left { OnErr result (self.new.inputs ≡ self.old.inputs) }
        ensures rest { self.new
            ≡ record (after_call CallKind.Read ((host_inputs self.old).name id.0) result self.old) {
              inputs = self.new.inputs;
            } }
        ensures sure { self.old.planned ≡ [] → IsOk result × (self.new.failed ≡ self.old.failed) }
    {
        if is_due(&self.planned, &mut self.calls, CallKind::Read) {
            let name = inputs::name(&self.inputs, id);
            return Err(note(self.alloc, &mut self.failed, CallKind::Read, name));
        }
        Ok(inputs::give(&mut self.inputs, id, self.chunk, buf))
    }

    fn open_out(&mut self, name: &str) -> Result<OutId, HostFail>
        ensures given { IfOk result (λ id.
            OpensOutput (host_outputs self.old) (host_outputs self.new) id.0 name.now) }
        ensures refused { OnErr result (host_outputs self.new ≡ host_outputs self.old) }
        ensures frame { MovesOutputsOnly host_inputs host_files host_faults self.old self.new }
        ensures cause { IsErrOf result HostFail.Failed
            → CountRose CallKind.OpenOut (Some name.now) host_faults self.old self.new }

        // Beyond what every host keeps: it fails where it was told, and nowhere else.
        ensures place { IfOk result (λ id. id.0 ≡ length self.old.outputs) }
        ensures only_told { IsErrOf result HostFail.Failed → IsDue CallKind.OpenOut self.old }
        ensures as_told { IsDue CallKind.OpenOut self.old → IsErr result }
        ensures left { OnErr result (self.new.outputs ≡ self.old.outputs) }
        ensures rest { self.new
            ≡ record (after_call CallKind.OpenOut (Some name.now) result self.old) {
              outputs = self.new.outputs;
            } }
        ensures sure { self.old.planned ≡ []
            → IsOkUnless result HostFail.NoMemory × (self.new.failed ≡ self.old.failed) }
    {
        if is_due(&self.planned, &mut self.calls, CallKind::OpenOut) {
            return Err(note(self.alloc, &mut self.failed, CallKind::OpenOut, name));
        }
        Ok(outputs::push(self.alloc, &mut self.outputs, name)?)
    }

    fn write(&mut self, id: OutId, bytes: &[u8]) -> Result<usize, HostFail>
        requires given { IsSome ((host_outputs self.old).name id.0) }
        requires some { 0 < length bytes.now }
        ensures bound { IfOk result (λ n. (0 < n) × (n ≤ length bytes.now)) }
        ensures took { IfOk result (λ n.
            Took id.0 (host_outputs self.old) (host_outputs self.new) (take n bytes.now)) }
        ensures refused { OnErr result (host_outputs self.new ≡ host_outputs self.old) }
        ensures frame { MovesOutputsOnly host_inputs host_files host_faults self.old self.new }
        ensures cause { IsErrOf result HostFail.Failed
            → CountRose CallKind.Write ((host_outputs self.old).name id.0)
            host_faults self.old self.new }

        // Beyond what every host keeps: it fails where it was told, and nowhere else.
        ensures amount { IfOk result (λ n. n ≡ length bytes.now) }
        ensures only_told { IsErrOf result HostFail.Failed → IsDue CallKind.Write self.old }
        ensures as_told { IsDue CallKind.Write self.old → IsErr result }
        ensures left { OnErr result (self.new.outputs ≡ self.old.outputs) }
        ensures rest { self.new
            ≡ record (after_call CallKind.Write ((host_outputs self.old).name id.0)
            result self.old) {
              outputs = self.new.outputs;
            } }
        ensures sure { self.old.planned ≡ []
            → IsOkUnless result HostFail.NoMemory × (self.new.failed ≡ self.old.failed) }
    {
        if is_due(&self.planned, &mut self.calls, CallKind::Write) {
            let name = outputs::name(&self.outputs, id);
            return Err(note(self.alloc, &mut self.failed, CallKind::Write, name));
        }
        outputs::append(&mut self.outputs, id, bytes)?;
        Ok(bytes.len())
    }
}
