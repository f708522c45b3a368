ghost use Rattle.std.specs.Prelude.{◌≡◌, ◌<◌, IfSome, IfErr, IfOk};
ghost use Rattle.db_text.specs.declared.limits.TheConstants.{MOST_TEXT_BYTES};
ghost use Rattle.npd_host.specs.Host.{MovesInputsOnly};
ghost use Rattle.pipeline.specs.Causes.{HasCause};
ghost use Rattle.npd_top.specs.Doings.{fault_status, loads_database, reads_text, IsFault};
ghost use Rattle.npd_top.specs.Loaded.{DatabaseIs, TotalsAre};
ghost use Rattle.npd_top.specs.Outside.{KeepsIds, FrontOf};
ghost use Rattle.pipeline.specs.Opened.{OpensOne};

use crate::totals::{Totals, totals_of};
use db_check::check;
use db_load::load_database;
use db_model::{CheckedDb, DbFail};
use engine::Engine;
use npd_host::{Host, fill};
use pipeline::{Role, Status, refused};
use std::alloc::Global;

/// Opens the database file and reads at most `most` bytes of it.
fn read_text<H: Host>(
    alloc: Global,
    host: &mut H,
    name: &str,
    most: usize,
) -> Result<Vec<u8>, Status>
    ensures front { IfOk result (λ text.
        IfSome (H.files host.old name.now) (FrontOf most text.items)) }
    ensures opens { OpensOne name.now (H.inputs host.old).opened (H.inputs host.new).opened result }
    ensures keeps { KeepsIds (H.inputs host.old) (H.inputs host.new) }
    ensures frame { MovesInputsOnly H.outputs H.files H.faults host.old host.new }
    ensures cause { IfErr result (HasCause (reads_text name.now)
        (H.faults host.old) (H.faults host.new)) }
{
    let id = match host.open_in(name) {
        Ok(id) => id,
        Err(fail) => return Err(refused(fail, Status::Open { role: Role::Db })),
    };
    let mut text = match vec![in alloc; 0u8; most] {
        Ok(text) => text,
        Err(_) => return Err(Status::NoMemory),
    };
    match fill(host, id, text.as_mut_slice()) {
        Ok(count) => {
            text.truncate(count);
            Ok(text)
        }
        Err(fail) => Err(refused(fail, Status::Read { role: Role::Db })),
    }
}

/// The status of a text that is no database that is accepted.
fn status_of(fail: DbFail) -> Status
    ensures { result ≡ fault_status fail }
{
    match fail {
        DbFail::Fault { line, code } => Status::Database { line, code },
        DbFail::NoMemory => Status::NoMemory,
    }
}

/// Loads the text of a database and checks it.
fn accepted(alloc: Global, text: &[u8]) -> Result<CheckedDb, Status>
    ensures database { DatabaseIs result text.now }
    ensures fault { IfErr result IsFault }
{
    match load_database(alloc, text) {
        Ok(db) => match check(alloc, db) {
            Ok(db) => Ok(db),
            Err(fail) => Err(status_of(fail)),
        },
        Err(fail) => Err(status_of(fail)),
    }
}

/// Opens the database file, reads it, loads it and checks it. `most` is how many bytes are read at most: more than
/// the text of a database has.
fn load<H: Host>(alloc: Global, host: &mut H, name: &str, most: usize) -> Result<CheckedDb, Status>
    requires { MOST_TEXT_BYTES < most }
    ensures database { IfSome (H.files host.old name.now) (DatabaseIs result) }
    ensures opens { OpensOne name.now (H.inputs host.old).opened (H.inputs host.new).opened result }
    ensures keeps { KeepsIds (H.inputs host.old) (H.inputs host.new) }
    ensures frame { MovesInputsOnly H.outputs H.files H.faults host.old host.new }
    ensures cause { IfErr result (HasCause (loads_database name.now)
        (H.faults host.old) (H.faults host.new)) }
{
    let text = read_text(alloc, host, name, most)?;
    accepted(alloc, text.as_slice())
}

/// The same as `load`, and makes what decodes by the database.
pub fn load_engine<H: Host>(
    alloc: Global,
    host: &mut H,
    name: &str,
    most: usize,
) -> Result<Engine, Status>
    requires { MOST_TEXT_BYTES < most }
    ensures database { IfSome (H.files host.old name.now) (DatabaseIs result) }
    ensures opens { OpensOne name.now (H.inputs host.old).opened (H.inputs host.new).opened result }
    ensures keeps { KeepsIds (H.inputs host.old) (H.inputs host.new) }
    ensures frame { MovesInputsOnly H.outputs H.files H.faults host.old host.new }
    ensures cause { IfErr result (HasCause (loads_database name.now)
        (H.faults host.old) (H.faults host.new)) }
{
    let db = match load(alloc, host, name, most) {
        Ok(db) => db,
        Err(status) => return Err(status),
    };
    match Engine::of(alloc, db) {
        Ok(engine) => Ok(engine),
        Err(_) => Err(Status::NoMemory),
    }
}

/// The same as `load`, and counts what the database declares.
pub fn load_totals<H: Host>(
    alloc: Global,
    host: &mut H,
    name: &str,
    most: usize,
) -> Result<Totals, Status>
    requires { MOST_TEXT_BYTES < most }
    ensures database { IfSome (H.files host.old name.now) (TotalsAre result) }
    ensures opens { OpensOne name.now (H.inputs host.old).opened (H.inputs host.new).opened result }
    ensures frame { MovesInputsOnly H.outputs H.files H.faults host.old host.new }
    ensures cause { IfErr result (HasCause (loads_database name.now)
        (H.faults host.old) (H.faults host.new)) }
{
    let db = match load(alloc, host, name, most) {
        Ok(db) => db,
        Err(status) => return Err(status),
    };
    let totals = totals_of(db.database());
    db.discard();
    Ok(totals)
}
