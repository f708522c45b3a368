ghost use Rattle.std.specs.Prelude.{◌≡◌, true, IfOk};
ghost use Rattle.db_model.specs.Fitting.{session_fits};
ghost use Rattle.session.specs.State.{view_of};

use crate::session::Session;
use db_model::NoMemory;
use std::marker::Model;

/// The content of a session at some moment.
#[derive(Drop)]
pub struct SessionView {
    session: Session,
}

impl Model for SessionView {
    ghost use Rattle.db_model.specs.contracts.database.Database as database;
    ghost use Rattle.db_model.specs.contracts.entry.Entry as entry;
    ghost use Rattle.session.specs.State.{View, view_code, view_of};

    ghost Value = { View };

    ghost coded = { view_code database.the_row.coded entry.the_row.coded };

    ghost view = { λ v. view_of v.session };
}

impl SessionView {
    /// The content of a session at this moment.
    pub fn of(session: &Session) -> Result<SessionView, NoMemory>
        ensures { IfOk result (λ v. v ≡ view_of session.now) }
    {
        Ok(SessionView {
            session: session.copy()?,
        })
    }

    /// A session with the content of this view, without room for a question.
    pub fn open(&self) -> Result<Session, NoMemory>
        ensures database { IfOk result (λ s. s.database ≡ self.now.database) }
        ensures content { IfOk result (λ s. s.content ≡ self.now.content) }
    {
        self.session.copy()
    }

    /// What a view holds fits its database.
    pub fn fits(&self)
        ensures { session_fits self.now.database self.now.content ≡ true }
    {
        self.session.fits();
    }
}
