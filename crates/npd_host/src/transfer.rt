ghost use Rattle.std.specs.Prelude.{◌≡◌, ◌<◌, ◌≤◌, length, take, IfOk, OnOk, OnErr, IsSome, IsErrOf};
ghost use Rattle.std.specs.Io.KnownBytes.{IsAtEnd};
ghost use Rattle.npd_host.specs.declared.host.CallKind.{CallKind};
ghost use Rattle.npd_host.specs.Host.{Gave, GaveFewer, Took, TookPart, CountRose, MovesInputsOnly, MovesOutputsOnly};

use crate::host::{Host, HostFail, InId, OutId};

/// Reads until `buf` is full or the input ends, and says how many bytes stand at the front of `buf`.
/// A refusal comes before `buf` is full; the bytes taken until then are lost.
pub fn fill<H: Host>(host: &mut H, id: InId, buf: &mut [u8]) -> Result<usize, HostFail>
    requires { IsSome ((H.inputs host.old).name id.0) }
    ensures bound { IfOk result (λ n. n ≤ length buf.new) }
    ensures gave { IfOk result (λ n.
        Gave id.0 (H.inputs host.old) (H.inputs host.new) (take n buf.new)) }
    ensures end { IfOk result (λ n. n < length buf.new → IsAtEnd ((H.inputs host.new).held id.0)) }
    ensures fewer { OnErr result
        (GaveFewer id.0 (H.inputs host.old) (H.inputs host.new) (length buf.new)) }
    ensures frame { MovesInputsOnly H.outputs H.files H.faults host.old host.new }
    ensures cause { IsErrOf result HostFail.Failed
        → CountRose CallKind.Read ((H.inputs host.old).name id.0) H.faults host.old host.new }
{
    let mut done = 0;
    while done < buf.len() {
        let count = host.read(id, &mut buf[done..])?;
        if count == 0 {
            return Ok(done);
        }
        done += count;
    }
    Ok(done)
}

/// Writes all of `bytes`. A refusal comes before all are taken.
pub fn write_all<H: Host>(host: &mut H, id: OutId, bytes: &[u8]) -> Result<(), HostFail>
    requires { IsSome ((H.outputs host.old).name id.0) }
    ensures took { OnOk result (Took id.0 (H.outputs host.old) (H.outputs host.new) bytes.now) }
    ensures part { OnErr result
        (TookPart id.0 (H.outputs host.old) (H.outputs host.new) bytes.now) }
    ensures frame { MovesOutputsOnly H.inputs H.files H.faults host.old host.new }
    ensures cause { IsErrOf result HostFail.Failed
        → CountRose CallKind.Write ((H.outputs host.old).name id.0) H.faults host.old host.new }
{
    let mut done = 0;
    while done < bytes.len() {
        done += host.write(id, &bytes[done..])?;
    }
    Ok(())
}
