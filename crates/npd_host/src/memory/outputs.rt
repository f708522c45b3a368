ghost use Rattle.std.specs.Prelude.{◌≡◌, Some, IfOk, OnOk, OnErr, IsSome, MatchOption, length};
ghost use Rattle.npd_host.specs.Host.{OpensOutput, Took};
ghost use Rattle.npd_host.specs.MemHost.{outputs_at, NoneNamed, LastNamed};

use crate::host::OutId;
use crate::memory::named::NamedBytes;
use db_model::NoMemory;
use std::alloc::Global;

/// Begins an empty output. Its id is its place in the list.
pub fn push(alloc: Global, outputs: &mut Vec<NamedBytes>, name: &str) -> Result<OutId, NoMemory>
    ensures given { IfOk result (λ id.
        OpensOutput (outputs_at outputs.old.items) (outputs_at outputs.new.items) id.0 name.now) }
    ensures place { IfOk result (λ id. id.0 ≡ length outputs.old.items) }
    ensures left { OnErr result (outputs.new.items ≡ outputs.old.items) }
{
    let id = OutId(outputs.len() as u64);
    let output = NamedBytes::copy_of(alloc, name, b"")?;
    outputs.push(output)?;
    Ok(id)
}

/// The name that an output was opened by.
pub fn name(outputs: &[NamedBytes], id: OutId) -> &str
    requires { IsSome ((outputs_at outputs.now).name id.0) }
    ensures { (outputs_at outputs.now).name id.0 ≡ Some result.now }
{
    let output = &outputs[id.0 as usize];
    output.name()
}

/// Adds bytes at the end of an output.
pub fn append(outputs: &mut [NamedBytes], id: OutId, bytes: &[u8]) -> Result<(), NoMemory>
    requires { IsSome ((outputs_at outputs.old).name id.0) }
    ensures took { OnOk result
        (Took id.0 (outputs_at outputs.old) (outputs_at outputs.new) bytes.now) }
    ensures left { OnErr result (outputs.new ≡ outputs.old) }
{
    let output = &mut outputs[id.0 as usize];
    output.append(bytes)
}

/// What the output of a name that was opened last has taken.
pub fn last<'a>(outputs: &'a [NamedBytes], name: &str) -> Option<&'a [u8]>
    ensures { MatchOption result (NoneNamed (outputs_at outputs.now) name.now) (λ bytes.
        LastNamed (outputs_at outputs.now) name.now bytes.now) }
{
    for place in (0..outputs.len()).rev() {
        let output = &outputs[place];
        if output.name() == name {
            return Some(output.bytes());
        }
    }
    None
}
