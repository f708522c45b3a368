ghost use Rattle.std.specs.Prelude.{◌≡◌, IfErr};
ghost use Rattle.npd_host.specs.Host.{MovesOutputsOnly};
ghost use Rattle.pipeline.specs.Causes.{HasCause, one, opening_call, opens_outputs};
ghost use Rattle.pipeline.specs.Written.{output_of};
ghost use Rattle.pipeline.specs.Taken.{wanted_of, OpensNamed, OpensOutputs};
ghost use Rattle.pipeline.specs.Written.{sink_of};

use crate::status::{Role, Status, refused};
use db_model::Word;
use engine::Wanted;
use npd_host::{CallKind, Host, OutId};

/// The outputs of packets that are named. None: it isn't.
#[derive(Drop)]
pub struct OutputFiles {
    pub pdml: Option<Word>,
    pub psml: Option<Word>,
    pub trace: Option<Word>,
}

/// The open outputs of packets. None: it isn't named.
#[derive(Clone, Copy)]
pub struct Sinks {
    pub pdml: Option<OutId>,
    pub psml: Option<OutId>,
    pub trace: Option<OutId>,
}

impl Sinks {
    /// The output of a role.
    pub fn of(self, role: Role) -> Option<OutId>
        ensures { result ≡ sink_of self role }
    {
        match role {
            Role::Pdml => self.pdml,
            Role::Psml => self.psml,
            Role::Trace => self.trace,
            Role::Db | Role::Cap | Role::Out => None,
        }
    }

    /// Which texts of packets are wanted: those of the outputs that are there.
    pub fn wanted(self) -> Wanted
        ensures { result ≡ wanted_of self }
    {
        Wanted {
            pdml: self.pdml.is_some(),
            psml: self.psml.is_some(),
        }
    }
}

/// Opens the output of a role where it is named.
fn open_named<H: Host>(
    host: &mut H,
    role: Role,
    name: &Option<Word>,
) -> Result<Option<OutId>, Status>
    requires { opening_call role ≡ CallKind.OpenOut }
    ensures opens { OpensNamed result role name.now (H.outputs host.old) (H.outputs host.new) }
    ensures frame { MovesOutputsOnly H.inputs H.files H.faults host.old host.new }
    ensures cause { IfErr result (HasCause (opens_outputs (one role name.now))
        (H.faults host.old) (H.faults host.new)) }
{
    let Some(name) = name else {
        return Ok(None);
    };
    match host.open_out(name.as_str()) {
        Ok(id) => Ok(Some(id)),
        Err(fail) => Err(refused(fail, Status::Open { role })),
    }
}

/// Opens the outputs that are named: PDML, PSML, trace.
pub fn open_outputs<H: Host>(host: &mut H, files: &OutputFiles) -> Result<Sinks, Status>
    ensures opens { OpensOutputs result files.now (H.outputs host.old) (H.outputs host.new) }
    ensures frame { MovesOutputsOnly H.inputs H.files H.faults host.old host.new }
    ensures cause { IfErr result (HasCause (opens_outputs (output_of files.now))
        (H.faults host.old) (H.faults host.new)) }
{
    let pdml = open_named(host, Role::Pdml, &files.pdml)?;
    let psml = open_named(host, Role::Psml, &files.psml)?;
    let trace = open_named(host, Role::Trace, &files.trace)?;
    Ok(Sinks { pdml, psml, trace })
}
