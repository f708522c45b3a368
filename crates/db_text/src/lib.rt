//! The text of a database as elements. `read_elements` gives the elements that a text spells by the grammar, or
//! exactly the line and the code of the text's first fault.
#![tactic(auto)]

mod build;
mod bytes;
mod decide;
mod fail;
mod frame;
mod frames;
pub mod laws;
mod limits;
mod mode;
mod names;
mod node;
mod notes;
mod parts;
mod read;
mod scan;
mod staying;
mod tag;

pub use fail::TextFail;
pub use limits::{MOST_ELEMENT_DEPTH, MOST_TEXT_BYTES};
pub use mode::Entity;
pub use node::{Attribute, AttributeList, Node, NodeList};
pub use read::read_elements;
