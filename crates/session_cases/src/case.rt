ghost use Rattle.std.specs.Prelude.{◌≡◌};
ghost use Rattle.pdl_code.specs.Does.{IsCodeOf};

use crate::decoding::decodes;
use crate::filling::refills;
use crate::held::holds_entry;
use crate::records::{applies, checks};
use db_model::CheckedDb;
use pdl_code::Code;
use session::{Session, SessionView};
use std::alloc::Global;

/// The first line of a case that doesn't hold. A case begins with the session to which nothing was added, and with the
/// view of it; where these aren't made, all its lines are given.
pub fn first_wrong<'a>(
    alloc: Global,
    db: &CheckedDb,
    code: &Code,
    lines: &'a str,
) -> Option<&'a str>
    requires { IsCodeOf db.now code.now }
{
    match Session::new(alloc, db) {
        Ok(mut session) => over_session(alloc, db, code, &mut session, lines),
        Err(_) => Some(lines),
    }
}

fn over_session<'a>(
    alloc: Global,
    db: &CheckedDb,
    code: &Code,
    session: &mut Session,
    lines: &'a str,
) -> Option<&'a str>
    requires code { IsCodeOf db.now code.now }
    requires session { session.old.database ≡ db.now }
{
    match session.snapshot() {
        Ok(mut view) => over_view(alloc, db, code, session, &mut view, lines),
        Err(_) => Some(lines),
    }
}

fn over_view<'a>(
    alloc: Global,
    db: &CheckedDb,
    code: &Code,
    session: &mut Session,
    view: &mut SessionView,
    lines: &'a str,
) -> Option<&'a str>
    requires code { IsCodeOf db.now code.now }
    requires session { session.old.database ≡ db.now }
    requires view { view.old.database ≡ db.now }
{
    for line in lines.lines() {
        if takes(alloc, db, code, session, view, line).is_none() {
            return Some(line);
        }
    }
    None
}

/// Takes one line. None: it doesn't hold.
fn takes(
    alloc: Global,
    db: &CheckedDb,
    code: &Code,
    session: &mut Session,
    view: &mut SessionView,
    line: &str,
) -> Option<()>
    requires code { IsCodeOf db.now code.now }
    requires session { session.old.database ≡ db.now }
    requires view { view.old.database ≡ db.now }
    ensures session { session.new.database ≡ db.now }
    ensures view { view.new.database ≡ db.now }
{
    let (word, rest) = line.split_once(' ').unwrap_or((line, ""));
    match word {
        "decode" => decodes(alloc, db, code, session, rest),
        "check" => checks(alloc, db, code, session, view, rest),
        "apply" => applies(alloc, db, code, session, view, rest),
        "entry" => holds_entry(alloc, db, session, rest),
        "refill" => refills(alloc, db, session, rest),
        "view" => views(session, view),
        "open" => opens(session, view),
        "copy" => copies(session),
        _ => None,
    }
}

/// `view`: the view becomes that of the session at this moment.
fn views(session: &mut Session, view: &mut SessionView) -> Option<()>
    requires { view.old.database ≡ session.old.database }
    ensures session { session.new.database ≡ session.old.database }
    ensures view { view.new.database ≡ session.old.database }
{
    *view = session.snapshot().ok()?;
    Some(())
}

/// `open`: the session becomes the one to which the view opens.
fn opens(session: &mut Session, view: &SessionView) -> Option<()>
    requires { view.now.database ≡ session.old.database }
    ensures { session.new.database ≡ session.old.database }
{
    *session = view.open().ok()?;
    Some(())
}

/// `copy`: the session becomes a copy of itself.
fn copies(session: &mut Session) -> Option<()>
    ensures { session.new.database ≡ session.old.database }
{
    *session = session.copy().ok()?;
    Some(())
}
