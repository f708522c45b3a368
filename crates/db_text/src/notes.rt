ghost use Rattle.std.specs.Prelude.{◌≡◌, suc, length, OnOk};
ghost use Rattle.db_text.specs.Machine;
ghost use Rattle.db_text.specs.Tree;

use crate::limits::MOST_ELEMENT_DEPTH;
use crate::mode::{Act, Place};
use crate::names::Names;
use db_model::NoMemory;
use std::alloc::Global;

/// What is known of the text so far, apart from its elements.
#[derive(Drop)]
pub struct Notes {
    /// The names of the open elements.
    pub names: Names,
    /// The top element was read.
    pub seen: bool,
    /// The line of the first element that stands too deep.
    pub deep: Option<u32>,
}

/// The line, where an element below so many others stands too deep.
fn if_deep(below: usize, line: u32) -> Option<u32>
    ensures { result ≡ Machine.if_deep (suc below) line }
{
    if MOST_ELEMENT_DEPTH <= below {
        Some(line)
    } else {
        None
    }
}

fn earlier(first: Option<u32>, second: Option<u32>) -> Option<u32>
    ensures { result ≡ Tree.earlier first second }
{
    match first {
        None => second,
        Some(line) => Some(line),
    }
}

impl Notes {
    /// Takes no memory.
    pub fn new(alloc: Global) -> Notes
        ensures { result ≡ Machine.no_notes }
    {
        Notes {
            names: Names::new(alloc),
            seen: false,
            deep: None,
        }
    }

    pub fn place(&self) -> Place
        ensures { result ≡ Machine.place_in self.now.names self.now.seen }
    {
        if !self.names.is_empty() {
            Place::Inside
        } else if self.seen {
            Place::After
        } else {
            Place::Before
        }
    }

    /// Takes note of what a byte does.
    pub fn note(&mut self, act: Act) -> Result<(), NoMemory>
        ensures { OnOk result (self.new ≡ Machine.noted act self.old) }
    {
        match act {
            Act::Opens { line, byte } => {
                self.deep = earlier(self.deep, if_deep(self.names.depth(), line));
                self.names.open(byte)?;
            }
            Act::AddsToName { byte } => self.names.add(byte)?,
            Act::Closes => {
                self.names.pop();
                self.seen = self.names.is_empty();
            }
            Act::Nothing | Act::AddsToWord { .. } | Act::AddsToValue { .. } | Act::EndsAttribute =>
                (),
        }
        Ok(())
    }
}
