ghost use Rattle.std.specs.Prelude.{◌≡◌, IfSome};
ghost use Rattle.npd_words.specs.Ranges.{IsInRange};
ghost use Rattle.npd_top.specs.Jobs;
ghost use Rattle.npd_top.specs.Jobs.{ReadsSome};

use db_model::Word;
use npd_words::Plan;
use pipeline::OutputFiles;

/// The files of a decode, and how many packets are read at most: in a window, 1 to 256, and in all.
#[derive(Drop)]
pub struct DecodeFiles {
    pub db: Word,
    pub cap: Word,
    pub outputs: OutputFiles,
    pub window: u32,
    pub max: u32,
}

/// The file of a check.
#[derive(Drop)]
pub struct CheckFiles {
    pub db: Word,
}

/// What the command words ask of the program.
#[derive(Drop)]
pub enum Job {
    /// Decode the capture by the database, and write the outputs that are named.
    Decode(DecodeFiles),
    /// Load and check the database, and write to standard output how much it declares.
    Check(CheckFiles),
}

/// The job that a plan is. None: it names a report, or asks for a capture to be made.
pub fn job_of(plan: Plan) -> Option<Job>
    requires { IsInRange plan }
    ensures job { result ≡ Jobs.job_of plan }
    ensures some { IfSome result ReadsSome }
{
    match plan {
        Plan::Decode {
            db,
            cap,
            pdml,
            psml,
            trace,
            report: None,
            workers: _,
            window,
            max,
        } => Some(Job::Decode(DecodeFiles {
            db,
            cap,
            outputs: OutputFiles { pdml, psml, trace },
            window,
            max,
        })),
        Plan::Decode {
            report: Some(_),
            ..
        } => None,
        Plan::Check { db } => Some(Job::Check(CheckFiles { db })),
        Plan::Gen { .. } => None,
    }
}
