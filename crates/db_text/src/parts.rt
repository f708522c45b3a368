ghost use Rattle.std.specs.Prelude.{◌≡◌, ◌++◌, OnOk, IfOk};
ghost use Rattle.db_text.specs.Machine;
ghost use Rattle.db_text.specs.Tree;

use crate::frame::Frame;
use crate::frames::Frames;
use crate::mode::{Act, Mode};
use crate::node::{Attribute, Node};
use crate::notes::Notes;
use db_model::{Bytes64, NoMemory, Sequence};
use sqlite_items::Items;
use std::alloc::Global;
use std::mem;

/// The parts of elements that were read.
#[derive(Drop)]
pub struct Parts {
    pub frames: Frames,
    /// The name of an attribute that is being read.
    pub word: Sequence<u8>,
    /// The value of an attribute that is being read.
    pub value: Sequence<u8>,
    /// The top element, once it is complete.
    pub top: Option<Node>,
}

fn copy_of(alloc: Global, bytes: &[u8]) -> Result<Bytes64, NoMemory>
    ensures { IfOk result (λ b. b ≡ bytes.now) }
{
    Ok(Bytes64::from_vec(Vec::from_slice(alloc, bytes)?))
}

/// Adds bytes at the end.
fn lengthen(alloc: Global, bytes: &mut Sequence<u8>, more: &[u8]) -> Result<(), NoMemory>
    ensures { OnOk result (bytes.new ≡ bytes.old ++ more.now) }
{
    let mut all = mem::replace(bytes, Sequence::new(alloc)).into_vec();
    all.extend_from_slice(more)?;
    *bytes = Sequence::from_vec(all);
    Ok(())
}

/// An attribute of a name and a value.
fn attribute_of(alloc: Global, name: &[u8], value: &[u8]) -> Result<Attribute, NoMemory>
    ensures { IfOk result (λ a. a ≡ Tree.attribute_of name.now value.now) }
{
    let name = copy_of(alloc, name)?;
    let value = copy_of(alloc, value)?;
    Ok(Attribute { name, value })
}

/// The element of a name and what was read of it.
fn element_of(alloc: Global, name: &[u8], frame: Frame) -> Result<Node, NoMemory>
    ensures { IfOk result (λ n. n ≡ Tree.element_of name.now frame.attributes frame.children frame.line) }
{
    let name = copy_of(alloc, name)?;
    Ok(Node {
        name,
        attributes: frame.attributes,
        children: frame.children,
        line: frame.line,
    })
}

/// An attribute more in the innermost element.
fn add_attribute(frames: &mut Frames, attribute: Attribute) -> Result<(), NoMemory>
    ensures { OnOk result (frames.new ≡ Machine.attributed attribute frames.old) }
{
    match frames.pop() {
        None => Ok(()),
        Some(mut frame) => {
            frame.attributes.push(attribute)?;
            frames.push(frame)
        }
    }
}

impl Parts {
    /// Takes no memory.
    pub fn new(alloc: Global) -> Parts
        ensures { result ≡ Machine.no_parts }
    {
        Parts {
            frames: Frames::new(alloc),
            word: Sequence::new(alloc),
            value: Sequence::new(alloc),
            top: None,
        }
    }

    fn open(&mut self, alloc: Global, line: u32) -> Result<(), NoMemory>
        ensures { OnOk result (self.new ≡ Machine.begun line self.old) }
    {
        self.frames.push(Frame {
            line,
            attributes: Items::new(alloc),
            children: Items::new(alloc),
        })
    }

    /// The attribute that was read is complete.
    fn end_attribute(&mut self, alloc: Global) -> Result<(), NoMemory>
        ensures { OnOk result (self.new ≡ Machine.ended self.old) }
    {
        let attribute = attribute_of(alloc, self.word.as_slice(), self.value.as_slice())?;
        self.word.clear();
        self.value.clear();
        add_attribute(&mut self.frames, attribute)
    }

    /// A complete element stands in the innermost open one, or is the top one.
    fn put(&mut self, node: Node) -> Result<(), NoMemory>
        ensures { OnOk result (self.new ≡ Machine.put node self.old.word self.old.value self.old.top self.old.frames) }
    {
        match self.frames.pop() {
            None => {
                self.top = Some(node);
                Ok(())
            }
            Some(mut frame) => {
                frame.children.push(node)?;
                self.frames.push(frame)
            }
        }
    }

    /// The innermost element, of this name, is complete.
    fn close(&mut self, alloc: Global, name: &[u8]) -> Result<(), NoMemory>
        ensures { OnOk result (self.new ≡ Machine.closed name.now self.old self.old.frames) }
    {
        match self.frames.pop() {
            None => Ok(()),
            Some(frame) => {
                let node = element_of(alloc, name, frame)?;
                self.put(node)
            }
        }
    }

    /// Adds bytes that leave this mode as it is to the name or the value that is being read.
    pub fn lengthen(&mut self, alloc: Global, mode: Mode, bytes: &[u8]) -> Result<(), NoMemory>
        ensures { OnOk result (self.new ≡ Machine.lengthened mode bytes.now self.old) }
    {
        match mode {
            Mode::AttributeName => lengthen(alloc, &mut self.word, bytes),
            Mode::Value { .. } => lengthen(alloc, &mut self.value, bytes),
            _ => Ok(()),
        }
    }

    /// Does what a byte does to the parts; `notes` are those before it.
    pub fn part(&mut self, alloc: Global, act: Act, notes: &Notes) -> Result<(), NoMemory>
        ensures { OnOk result (self.new ≡ Machine.parted act notes.now self.old) }
    {
        match act {
            Act::Opens { line, .. } => self.open(alloc, line),
            Act::AddsToWord { byte } => self.word.push(byte),
            Act::AddsToValue { byte } => self.value.push(byte),
            Act::EndsAttribute => self.end_attribute(alloc),
            Act::Closes => self.close(alloc, notes.names.top()),
            Act::Nothing | Act::AddsToName { .. } => Ok(()),
        }
    }
}
