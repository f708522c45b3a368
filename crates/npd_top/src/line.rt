ghost use Rattle.std.specs.Prelude.{IfErr};
ghost use Rattle.npd_host.specs.Host.{MovesOutputsOnly};
ghost use Rattle.pipeline.specs.Causes.{HasCause};
ghost use Rattle.pipeline.specs.Opened.{OpensOne};
ghost use Rattle.npd_top.specs.Doings.{writes_line};
ghost use Rattle.npd_top.specs.Line.{standard, WritesLine};

use npd_host::{Host, write_all};
use pipeline::{Role, Status, refused};

/// Opens standard output and writes the line of a command.
pub fn write_line<H: Host>(host: &mut H, line: &[u8]) -> Result<(), Status>
    ensures writes { WritesLine result (H.outputs host.old) (H.outputs host.new) standard line.now }
    ensures opens { OpensOne standard (H.outputs host.old).opened (H.outputs host.new).opened result }
    ensures frame { MovesOutputsOnly H.inputs H.files H.faults host.old host.new }
    ensures cause { IfErr result (HasCause (writes_line standard) (H.faults host.old) (H.faults host.new)) }
{
    let id = match host.open_out("-") {
        Ok(id) => id,
        Err(fail) => return Err(refused(fail, Status::Open { role: Role::Out })),
    };
    match write_all(host, id, line) {
        Ok(()) => Ok(()),
        Err(fail) => Err(refused(fail, Status::Write { role: Role::Out })),
    }
}
