ghost use Rattle.std.specs.Prelude.{◌≡◌, ◌<◌, ◌≤◌, ◌^◌, length, map, string_bytes};
ghost use Rattle.npd_host.specs.Host.{NoneFalls};
ghost use Rattle.npd_top.specs.CaptureRun.{CaptureRuns};
ghost use Rattle.npd_top.specs.CheckRun.{CheckSays, CheckOpens};
ghost use Rattle.npd_top.specs.DecodeRun.{DecodeSays, DecodeOpens};
ghost use Rattle.npd_top.specs.Outside.{seen};
ghost use Rattle.npd_top.specs.Jobs.{ReadsSome};
ghost use Rattle.npd_top.specs.Run.{Means, Opens, Says, WhereUntouched};
ghost use Rattle.npd_top.specs.Doings.{serves};
ghost use Rattle.pipeline.specs.Causes.{HasCause};

use crate::job::{CheckFiles, DecodeFiles, Job, job_of};
use crate::limits::MOST_DATABASE;
use crate::line::write_line;
use crate::load::{load_engine, load_totals};
use crate::totals::totals_line;
use engine::Engine;
use npd_host::Host;
use npd_words::{WordsFail, read_words};
use pcap_in::laws::{fronts_tell, seen_is_limited};
use pipeline::{Part, Room, Status, open_capture, write_named};
use std::alloc::Global;

/// How many packets these files let be read.
fn room_of(files: &DecodeFiles) -> Room
    ensures { result ≡ record { window = files.now.window; left = files.now.max; most = files.now.max } }
{
    Room {
        window: files.window,
        left: files.max,
        most: files.max,
    }
}

/// Opens the capture and the outputs, and writes the texts of the packets.
fn decode_capture<H: Host>(
    alloc: Global,
    host: &mut H,
    files: &DecodeFiles,
    engine: &Engine,
) -> Status
    requires { 0 < files.now.window }
    ensures runs { CaptureRuns result files.now engine.now (seen H.Host host.old) (seen H.Host host.new) }
    ensures files { H.files host.new ≡ H.files host.old }
    ensures later { NoneFalls (H.faults host.old) (H.faults host.new) }
{
    let reader = match open_capture(alloc, host, files.cap.as_str()) {
        Ok(reader) => reader,
        Err(status) => return status,
    };
    write_named(alloc, host, engine, reader, &files.outputs, room_of(files))
}

/// Loads the database, and decodes the capture by it.
fn run_decode<H: Host>(alloc: Global, host: &mut H, files: &DecodeFiles) -> Status
    requires { ReadsSome (Job.Decode files.now) }
    ensures opens { DecodeOpens result files.now (seen H.Host host.old) (seen H.Host host.new) }
    ensures says { DecodeSays result files.now (seen H.Host host.old) (seen H.Host host.new) }
    ensures cause { HasCause (serves (Job.Decode files.now)) (H.faults host.old) (H.faults host.new) result }
    ensures files { H.files host.new ≡ H.files host.old }
    ensures later { NoneFalls (H.faults host.old) (H.faults host.new) }
{
    seen_is_limited();
    fronts_tell();
    // One byte more than a database has, so that a longer text is seen.
    let engine = match load_engine(alloc, host, files.db.as_str(), MOST_DATABASE + 1) {
        Ok(engine) => engine,
        Err(status) => return status,
    };
    let status = decode_capture(alloc, host, files, &engine);
    engine.discard();
    status
}

/// Loads and checks the database, and writes how much it declares.
fn run_check<H: Host>(alloc: Global, host: &mut H, files: &CheckFiles) -> Status
    ensures opens { CheckOpens result files.now (seen H.Host host.old) (seen H.Host host.new) }
    ensures says { CheckSays result files.now (seen H.Host host.old) (seen H.Host host.new) }
    ensures cause { HasCause (serves (Job.Check files.now)) (H.faults host.old) (H.faults host.new) result }
    ensures files { H.files host.new ≡ H.files host.old }
    ensures later { NoneFalls (H.faults host.old) (H.faults host.new) }
{
    // One byte more than a database has, so that a longer text is seen.
    let totals = match load_totals(alloc, host, files.db.as_str(), MOST_DATABASE + 1) {
        Ok(totals) => totals,
        Err(status) => return status,
    };
    let line = match totals_line(alloc, &totals) {
        Ok(line) => line,
        Err(_) => return Status::NoMemory,
    };
    match write_line(host, line.as_slice()) {
        Ok(()) => Status::Done,
        Err(status) => status,
    }
}

/// Does a job.
fn run_job<H: Host>(alloc: Global, host: &mut H, job: &Job) -> Status
    requires { ReadsSome job.now }
    ensures opens { Opens result job.now (seen H.Host host.old) (seen H.Host host.new) }
    ensures says { Says result job.now (seen H.Host host.old) (seen H.Host host.new) }
    ensures cause { HasCause (serves job.now) (H.faults host.old) (H.faults host.new) result }
    ensures files { H.files host.new ≡ H.files host.old }
    ensures later { NoneFalls (H.faults host.old) (H.faults host.new) }
{
    match job {
        Job::Decode(files) => run_decode(alloc, host, files),
        Job::Check(files) => run_check(alloc, host, files),
    }
}

/// Serves command words on a host. It always returns.
///
/// `decode --db D --cap C` reads the database file D and the capture C, and decodes the packets one by one, in order, at
/// most as many as `--max-packets` says, by windows of at most as many as `--window` says. It writes what is named of:
/// to `--pdml P` their PDML, to `--psml S` their PSML, and to `--trace T` a line for each. `check --db D` loads and
/// checks the database file D, and writes to standard output how much it declares.
///
/// The status says how it ended. `Means` is what each status promises, for every list of words, every host,
/// every told input and every list of failing calls: which status comes exactly where, which only where the
/// count of faults of the role's own name rose in this call, which files were opened, in order, each once, and
/// what each output that is named has taken then.
pub fn run_serial<H: Host>(alloc: Global, words: &[String], host: &mut H) -> Status
    requires { length words.now < 2 ^ 32 }
    ensures means { Means result (map string_bytes words.now)
        (seen H.Host host.old) (seen H.Host host.new) }
    ensures untouched { WhereUntouched result (host.new ≡ host.old) }
    ensures files { H.files host.new ≡ H.files host.old }
    ensures later { NoneFalls (H.faults host.old) (H.faults host.new) }
{
    let plan = match read_words(alloc, words) {
        Ok(plan) => plan,
        Err(WordsFail::Fault { index, code }) => return Status::Words { index, code },
        Err(WordsFail::NoMemory) => return Status::NoMemory,
    };
    match job_of(plan) {
        Some(job) => run_job(alloc, host, &job),
        None => Status::Unbuilt { part: Part::Words },
    }
}
