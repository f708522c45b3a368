//! All tables of a database. Contracts see a `Session` as its database, the content of its tables and the number of
//! questions for which it has room; what it holds always fits its database. It answers each question as the
//! definition does and goes on to the definition's next content, and `put` takes no memory: `reserve` has taken it.
//! A `SessionView` keeps the content of its moment, whatever the session does later.
#![tactic(auto)]

mod any_table;
mod of_database;
mod session;
mod tables;
mod view;

pub use session::Session;
pub use view::SessionView;
