//! How bytes and moments are shown in the outputs, and what a database calls its fields and blocks. The contracts give
//! the layers above the shown text of a value by a show template or by the label of its field, as a value of the
//! markup or as it is, always added behind what a buffer holds already.
#![tactic(auto)]

mod label_walk;
mod labelled;
mod labels;
mod markup;
mod naming;
mod text;
mod value;

pub use labelled::{Labelled, push_field_shown};
pub use labels::{Labels, ProtocolLabels};
pub use markup::{TextForm, push_written};
pub use naming::{BlockLabel, BlockNaming, FieldLabel, FieldNaming, push_named};
pub use text::{push, push_hex, push_number, push_timestamp};
pub use value::{push_characters, push_hex_and_shown, push_shown, show_value};
