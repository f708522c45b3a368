ghost use Rattle.std.specs.Prelude.{◌≡◌, [], ◌∷◌, OnOk, IfSome, IfNone};
ghost use Rattle.expr_text.specs.Machine;

use crate::machine::{Begun, Frame};
use db_model::NoMemory;
use std::alloc::Global;
use std::marker::Model;

/// What is open, seen as a list with the innermost first.
#[derive(Drop)]
pub struct Frames {
    frames: Vec<Frame>,
}

impl Model for Frames {
    ghost use Rattle.std.specs.Prelude.{List, reverse};
    ghost use Rattle.expr_text.specs.declared.machine.Frame.{Frame};
    ghost use Rattle.db_model.specs.contracts.expression.Expr as e;
    ghost use Rattle.std.specs.Coded.{codes};

    ghost Value = { List Frame };

    ghost coded = { Prim.hlevel (codes, e.the_row.coded) };

    ghost view = { λ s. reverse s.frames.items };
}

fn wanted_by(kind: &Begun) -> u32
    ensures { result ≡ Machine.wanted_by kind.now }
{
    match kind {
        Begun::Operand(operator) => operator.level() + 1,
        Begun::Negated => 3,
        Begun::Parenthesis
        | Begun::Start
        | Begun::Length
        | Begun::Argument(_)
        | Begun::Key { .. } => 1,
    }
}

fn binds(level: u32, kind: &Begun) -> bool
    ensures { result ≡ Machine.binds level kind.now }
{
    match kind {
        Begun::Operand(operator) => level <= operator.level(),
        Begun::Negated => level <= 3,
        Begun::Parenthesis
        | Begun::Start
        | Begun::Length
        | Begun::Argument(_)
        | Begun::Key { .. } => false,
    }
}

impl Frames {
    /// Takes no memory.
    pub fn new(alloc: Global) -> Frames
        ensures { result ≡ [] }
    {
        Frames {
            frames: Vec::new(alloc),
        }
    }

    pub fn push(&mut self, frame: Frame) -> Result<(), NoMemory>
        ensures { OnOk result (self.new ≡ frame ∷ self.old) }
    {
        self.frames.push(frame)?;
        Ok(())
    }

    pub fn pop(&mut self) -> Option<Frame>
        ensures popped { IfSome result (λ frame. self.old ≡ frame ∷ self.new) }
        ensures empty { IfNone result ((self.old ≡ []) × (self.new ≡ [])) }
    {
        self.frames.pop()
    }

    /// The least level that an expression may have here.
    pub fn wanted(&self) -> u32
        ensures { result ≡ Machine.wanted self.now }
    {
        match self.frames.last() {
            None => 1,
            Some(frame) => wanted_by(&frame.kind),
        }
    }

    /// Whether the innermost frame ends where what follows has at most this level.
    pub fn ends(&self, level: u32) -> bool
        ensures { result ≡ Machine.ends level self.now }
    {
        match self.frames.last() {
            None => false,
            Some(frame) => binds(level, &frame.kind),
        }
    }

    pub fn is_empty(&self) -> bool
        ensures { result ≡ Machine.is_empty self.now }
    {
        self.frames.is_empty()
    }
}
