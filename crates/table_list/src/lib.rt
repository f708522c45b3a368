//! A lookup table as two lists of entries, those with exact keys and those with masks, each in the order of adding.
//! Contracts see a `ListTable` as its declaration, its content and the number of calls for which it has room. Each
//! call is one step of the definition on the content, and what answers or adds takes no memory: `reserve` has
//! taken it.
#![tactic(auto)]

mod blank;
mod buffer;
mod deadline;
mod declaration;
mod entry;
mod list_table;
mod lists;
mod putting;
mod room;
mod search;
mod space;

pub use list_table::ListTable;
