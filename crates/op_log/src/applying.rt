ghost use Rattle.std.specs.Prelude.{◌≡◌, ◌+◌, ◌<◌, ◌≤◌, true, length};
ghost use Rattle.db_model.specs.Fitting.{log_fits};
ghost use Rattle.db_model.specs.Replay.{after};

use crate::transcript::Transcript;
use db_model::{STAMP_END, Stamp};
use session::Session;

/// Puts the questions of a log in order. Takes no memory.
pub fn apply(log: &Transcript, session: &mut Session, t: Stamp)
    requires room { length log.now ≤ session.old.spare }
    requires fits { log_fits session.old.database log.now ≡ true }
    requires time { t < STAMP_END }
    ensures database { session.new.database ≡ session.old.database }
    ensures content { session.new.content ≡ after session.old.database t log.now session.old.content }
    ensures spare { session.old.spare ≤ session.new.spare + length log.now }
{
    for (question, _noted) in log.as_slice() {
        let _answer = session.put(question, t);
    }
}
