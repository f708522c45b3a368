//! The tree of a packet as lines: one for each protocol, for the bytes that none took, and for each node, those
//! within a block behind it and deeper.

use crate::hexadecimal;
use db_model::{Node, PAYLOAD, Proto};
use std::alloc::Global;

/// The lines of a tree.
pub fn of(alloc: Global, tree: &[Proto]) -> Option<String> {
    let mut text = String::new(alloc);
    for proto in tree {
        protocol(alloc, &mut text, proto)?;
    }
    Some(text)
}

fn protocol(alloc: Global, text: &mut String, proto: &Proto) -> Option<()> {
    if proto.number == PAYLOAD {
        text.push_str("payload").ok()?;
    } else {
        text.push_str("protocol ").ok()?;
        number(alloc, text, u32::from(proto.number))?;
    }
    place(alloc, text, proto.pos, proto.size)?;
    text.push('\n').ok()?;
    nodes(alloc, text, 1, proto.nodes.as_slice())
}

fn number(alloc: Global, text: &mut String, n: u32) -> Option<()> {
    let digits = format!(in alloc; "{n}").ok()?;
    text.push_str(digits.as_str()).ok()
}

/// A position and a size.
fn place(alloc: Global, text: &mut String, pos: u32, size: u32) -> Option<()> {
    let digits = format!(in alloc; " {pos} {size}").ok()?;
    text.push_str(digits.as_str()).ok()
}

#[cycle(nodes)]
fn nodes(alloc: Global, text: &mut String, depth: u32, list: &[Node]) -> Option<()> {
    for node in list {
        one(alloc, text, depth, node)?;
    }
    Some(())
}

fn indent(text: &mut String, depth: u32) -> Option<()> {
    for _level in 0..depth {
        text.push_str("  ").ok()?;
    }
    Some(())
}

#[cycle(nodes)]
fn one(alloc: Global, text: &mut String, depth: u32, node: &Node) -> Option<()> {
    indent(text, depth)?;
    match node {
        Node::Field {
            field,
            pos,
            size,
            value,
        } => {
            text.push_str("field ").ok()?;
            number(alloc, text, *field)?;
            place(alloc, text, *pos, *size)?;
            text.push(' ').ok()?;
            hexadecimal::write(text, value.as_slice())?;
            text.push('\n').ok()
        }
        Node::Block {
            block,
            pos,
            size,
            nodes: within,
        } => {
            text.push_str("block ").ok()?;
            number(alloc, text, *block)?;
            place(alloc, text, *pos, *size)?;
            text.push('\n').ok()?;
            nodes(alloc, text, depth.saturating_add(1), within.as_slice())
        }
        Node::Note { reason, pos } => {
            text.push_str("note ").ok()?;
            text.push_str(reason.word()).ok()?;
            text.push(' ').ok()?;
            number(alloc, text, *pos)?;
            text.push('\n').ok()
        }
    }
}
