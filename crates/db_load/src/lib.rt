//! The database that a text is. `load_database` gives it exactly where the text has elements without a fault of
//! shape, and then it is shaped; else the line and the code of the fault: the text's, or of all faults of shape the
//! one of the least line, and there of the least code. What may stand where, with what attributes, is one table
//! (`rules`, `children`). `laws` has what holds of every answer.
#![tactic(auto)]

mod attribute;
mod child;
mod child_table;
mod choice;
mod element;
mod expression;
mod form;
mod from_node;
mod kind;
pub mod laws;
mod levels;
mod load;
mod mask;
mod protocol;
mod rule;
mod rule_table;
mod summary;
mod table;
mod update;
mod value;
mod walk;
mod word;

pub use child_table::{children, is_ordered};
pub use choice::is_choice;
pub use expression::{literal_of, parsed, quoted_of};
pub use form::{has_form, is_parsed, is_section, is_text, is_variable_name};
pub use kind::{Kind, ListKind};
pub use levels::MOST_LEVELS;
pub use load::load_database;
pub use mask::mask_of;
pub use protocol::database_of;
pub use rule::{Child, Form, Need, Rule};
pub use rule_table::rules;
pub use walk::refusal;
pub use word::Word;
