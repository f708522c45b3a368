ghost use Rattle.std.specs.Prelude.{◌≡◌, ◌<◌, ◌≤◌, min, Some, IfOk, IsSome, IsSomeAnd, OnErr, length, take};
ghost use Rattle.std.specs.Io.KnownBytes.{IsAtEnd};
ghost use Rattle.npd_host.specs.Host.{OpensInput, Gave};
ghost use Rattle.npd_host.specs.MemHost.{inputs_at};

use crate::host::InId;
use crate::memory::input::Input;
use db_model::NoMemory;
use std::alloc::Global;

/// Opens an input that holds these bytes. Its id is its place in the list.
pub fn push(
    alloc: Global,
    inputs: &mut Vec<Input>,
    name: &str,
    bytes: &[u8],
) -> Result<InId, NoMemory>
    ensures given { IfOk result (λ id.
        OpensInput (inputs_at inputs.old.items) (inputs_at inputs.new.items) id.0
        name.now (Some bytes.now)) }
    ensures place { IfOk result (λ id. id.0 ≡ length inputs.old.items) }
    ensures left { OnErr result (inputs.new.items ≡ inputs.old.items) }
{
    let id = InId(inputs.len() as u64);
    let input = Input::copy_of(alloc, name, bytes)?;
    inputs.push(input)?;
    Ok(id)
}

/// The name that an input was opened by.
pub fn name(inputs: &[Input], id: InId) -> &str
    requires { IsSome ((inputs_at inputs.now).name id.0) }
    ensures { (inputs_at inputs.now).name id.0 ≡ Some result.now }
{
    let input = &inputs[id.0 as usize];
    input.name()
}

/// Gives bytes of an input to the front of `buf`, at most `most`, and says how many.
pub fn give(inputs: &mut [Input], id: InId, most: u32, buf: &mut [u8]) -> usize
    requires given { IsSome ((inputs_at inputs.old).name id.0) }
    requires room { 0 < length buf.old }
    requires some { 0 < most }
    ensures bound { result ≤ length buf.new }
    ensures count { IsSomeAnd ((inputs_at inputs.old).held id.0) (λ bytes.
        result ≡ min (min most (length buf.new)) (length bytes)) }
    ensures gave { Gave id.0 (inputs_at inputs.old) (inputs_at inputs.new) (take result buf.new) }
    ensures end { result ≡ 0 → IsAtEnd ((inputs_at inputs.new).held id.0) }
{
    let place = id.0 as usize;
    let input = &mut inputs[place];
    input.give(most, buf)
}
