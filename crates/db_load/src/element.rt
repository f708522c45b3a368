//! Elements from the elements of a text. In each the expression is read last, since whatever fails behind it would
//! have to let it go again.

ghost use Rattle.std.specs.Prelude.{◌≡◌, ◌++◌, ◌∷◌, [], map, IfOk, OnOk};
ghost use Rattle.db_text.specs.declared.node.Node.{Node, out-Node};
ghost use Rattle.db_load.specs.Meaning;
ghost use Rattle.db_load.specs.Pieces;
ghost use Rattle.db_load.specs.declared.kind.Kind.TheVariants as kind;
ghost use Rattle.db_load.specs.declared.word.Word.TheVariants as word;

use crate::child::row_of;
use crate::update::{keys, values};
use crate::value::{
    expr_by, is_word, loop_control_by, loop_kind_by, name_by, number_by, optional_name_by,
    optional_number_by, text_by, token_by, validity_by, value_at, variable_name_by,
};
use crate::{Child, Kind, ListKind, Word, children};
use db_model::{Branch, Case, Element, Expr, FieldForm, NoMemory};
use db_text::Node;
use sqlite_items::Items;
use std::alloc::Global;

/// The form of a field, by its type.
fn form(alloc: Global, node: &Node) -> Result<FieldForm, NoMemory>
    ensures { IfOk result (λ f. f ≡ Meaning.form_by (out-Node node.now).attributes) }
{
    let ty = value_at(node, Word::Type);
    if is_word(ty, Word::Fixed) {
        let size = number_by(node, Word::Size);
        Ok(FieldForm::Fixed { size })
    } else if is_word(ty, Word::Bit) {
        let size = number_by(node, Word::Size);
        let mask = number_by(node, Word::Mask);
        Ok(FieldForm::Bit { size, mask })
    } else if is_word(ty, Word::Variable) {
        let expr = expr_by(alloc, node, Word::Expr)?;
        Ok(FieldForm::Variable { expr })
    } else if is_word(ty, Word::TokenEnded) {
        let token = token_by(alloc, node, Word::Token)?;
        Ok(FieldForm::TokenEnded { token })
    } else if is_word(ty, Word::Padding) {
        let align = number_by(node, Word::Align);
        Ok(FieldForm::Padding { align })
    } else {
        Ok(FieldForm::Line)
    }
}

fn field(alloc: Global, node: &Node) -> Result<Element, NoMemory>
    ensures { IfOk result (λ e. e ≡ Meaning.field_by (Meaning.layer node.now)) }
{
    Ok(Element::Field {
        line: node.line,
        name: name_by(alloc, node, Word::Name)?,
        longname: text_by(alloc, node, Word::LongName)?,
        show: optional_name_by(alloc, node, Word::Show)?,
        form: form(alloc, node)?,
    })
}

fn include(alloc: Global, node: &Node) -> Result<Element, NoMemory>
    ensures { IfOk result (λ e. e ≡ Meaning.include_by (Meaning.layer node.now)) }
{
    Ok(Element::IncludeBlock {
        line: node.line,
        name: name_by(alloc, node, Word::Name)?,
    })
}

fn loop_control(node: &Node) -> Element
    ensures { result ≡ Meaning.control_by (Meaning.layer node.now) }
{
    Element::LoopCtrl {
        line: node.line,
        kind: loop_control_by(node, Word::Type),
    }
}

fn assign(alloc: Global, node: &Node) -> Result<Element, NoMemory>
    ensures { IfOk result (λ e. e ≡ Meaning.assign_by (Meaning.layer node.now)) }
{
    Ok(Element::Assign {
        line: node.line,
        name: variable_name_by(alloc, node, Word::Name)?,
        value: expr_by(alloc, node, Word::Value)?,
    })
}

fn update(alloc: Global, node: &Node) -> Result<Element, NoMemory>
    ensures { IfOk result (λ e. e ≡ Meaning.update_by (Meaning.layer node.now)) }
{
    Ok(Element::Update {
        line: node.line,
        table: name_by(alloc, node, Word::Table)?,
        validity: validity_by(node, Word::Validity),
        keep: optional_number_by(node, Word::KeepTime),
        hit: optional_number_by(node, Word::HitTime),
        keys: keys(alloc, node.children.as_slice())?,
        row: values(alloc, node.children.as_slice())?,
    })
}

fn next_proto(alloc: Global, node: &Node) -> Result<Element, NoMemory>
    ensures { IfOk result (λ e. e ≡ Meaning.next_by (Meaning.layer node.now)) }
{
    Ok(Element::NextProto {
        line: node.line,
        proto: expr_by(alloc, node, Word::Proto)?,
    })
}

/// An item goes behind those that are there, where there is one.
pub fn push_some<T: Drop>(items: &mut Items<T>, item: Option<T>) -> Result<(), NoMemory>
    ensures { OnOk result (items.new ≡ items.old ++ Meaning.items_of item) }
{
    if let Some(one) = item {
        items.push(one)?;
    }
    Ok(())
}

/// What stands in an element of this kind.
#[cycle(conversion)]
#[tactic(auto, using(crate::proofs::Means::meant_body))]
pub fn body(alloc: Global, kind: Kind, node: &Node) -> Result<Items<Element>, NoMemory>
    ensures { IfOk result (λ b. b ≡ (Meaning.meant node.now).body kind) }
{
    list(alloc, children(kind), node.children.as_slice())
}

#[cycle(conversion)]
fn list(alloc: Global, rows: &[Child], nodes: &[Node]) -> Result<Items<Element>, NoMemory>
    ensures { IfOk result (λ es. es ≡ Meaning.list_by rows.now (map Meaning.meant nodes.now)) }
{
    let mut elements = Items::new(alloc);
    for node in nodes {
        let placed = placed(alloc, row_of(rows, node.name.as_slice()), node)?;
        push_some(&mut elements, placed)?;
    }
    Ok(elements)
}

/// An element that stands under a row.
#[cycle(conversion)]
#[tactic(auto, using(crate::proofs::Means::meant_element))]
fn placed(alloc: Global, row: Option<Child>, node: &Node) -> Result<Option<Element>, NoMemory>
    ensures { IfOk result (λ e. Meaning.items_of e ≡ Meaning.placed row (Meaning.meant node.now)) }
{
    match row {
        Some(row) => Ok(Some(element(alloc, row.kind, node)?)),
        None => Ok(None),
    }
}

#[cycle(conversion)]
fn element(alloc: Global, kind: Kind, node: &Node) -> Result<Element, NoMemory>
    ensures { IfOk result (λ e. e ≡ Meaning.element_by (Meaning.layer node.now) kind) }
{
    match kind {
        Kind::Field => field(alloc, node),
        Kind::Block(list) => block(alloc, list, node),
        Kind::Loop => repetition(alloc, node),
        Kind::LoopCtrl(_) => Ok(loop_control(node)),
        Kind::Switch(list) => switch(alloc, list, node),
        Kind::If(list) => condition(alloc, list, node),
        Kind::Assign => assign(alloc, node),
        Kind::Update => update(alloc, node),
        Kind::NextProto => next_proto(alloc, node),
        _ => include(alloc, node),
    }
}

#[cycle(conversion)]
fn block(alloc: Global, of: ListKind, node: &Node) -> Result<Element, NoMemory>
    ensures { IfOk result (λ e. e ≡ Meaning.block_by (kind.Block of) (Meaning.layer node.now)) }
{
    Ok(Element::Block {
        line: node.line,
        name: name_by(alloc, node, Word::Name)?,
        longname: text_by(alloc, node, Word::LongName)?,
        body: list(alloc, children(Kind::Block(of)), node.children.as_slice())?,
    })
}

#[cycle(conversion)]
fn repetition(alloc: Global, node: &Node) -> Result<Element, NoMemory>
    ensures { IfOk result (λ e. e ≡ Meaning.loop_by (Meaning.layer node.now)) }
{
    Ok(Element::Loop {
        line: node.line,
        kind: loop_kind_by(node, Word::Type),
        body: list(alloc, children(Kind::Loop), node.children.as_slice())?,
        expr: expr_by(alloc, node, Word::Expr)?,
    })
}

#[cycle(conversion)]
fn switch(alloc: Global, of: ListKind, node: &Node) -> Result<Element, NoMemory>
    ensures { IfOk result (λ e. e ≡ Meaning.switch_by of (Meaning.layer node.now)) }
{
    let nodes = node.children.as_slice();
    Ok(Element::Switch {
        line: node.line,
        cases: cases(alloc, of, nodes)?,
        otherwise: branch(alloc, of, Word::Default, nodes)?,
        expr: expr_by(alloc, node, Word::Expr)?,
    })
}

#[cycle(conversion)]
fn condition(alloc: Global, of: ListKind, node: &Node) -> Result<Element, NoMemory>
    ensures { IfOk result (λ e. e ≡ Meaning.condition_by of (Meaning.layer node.now)) }
{
    let nodes = node.children.as_slice();
    let so = branch(alloc, of, Word::IfTrue, nodes)?;
    let otherwise = branch(alloc, of, Word::IfFalse, nodes)?;
    let expr = expr_by(alloc, node, Word::Expr)?;
    Ok(condition_of(alloc, node.line, expr, so, otherwise))
}

#[cycle(conversion)]
fn cases(alloc: Global, of: ListKind, nodes: &[Node]) -> Result<Items<Case>, NoMemory>
    ensures { IfOk result (λ cs. cs ≡ Meaning.named word.Case (Meaning.case_by of) (map Meaning.meant nodes.now)) }
{
    let mut cases = Items::new(alloc);
    for node in nodes {
        let found = case(alloc, of, node)?;
        push_some(&mut cases, found)?;
    }
    Ok(cases)
}

/// A case of what it says and what stands in it.
fn case_of(node: &Node, body: Items<Element>) -> Case
    ensures { result ≡ Pieces.case_by node.now body }
{
    let value = number_by(node, Word::Value);
    let maxvalue = optional_number_by(node, Word::MaxValue).unwrap_or(value);
    Case {
        line: node.line,
        value,
        maxvalue,
        body,
    }
}

/// The case that an element is, if it is one.
#[cycle(conversion)]
#[tactic(auto, using(crate::proofs::Means::meant_name, crate::proofs::Means::meant_line, crate::proofs::Means::meant_attributes))]
fn case(alloc: Global, of: ListKind, node: &Node) -> Result<Option<Case>, NoMemory>
    ensures { IfOk result (λ c. Meaning.items_of c
        ≡ Meaning.named word.Case (Meaning.case_by of) (Meaning.meant node.now ∷ [])) }
{
    if node.name.as_slice() != Word::Case.spelled() {
        return Ok(None);
    }
    let body = body(alloc, Kind::Case(of), node)?;
    Ok(Some(case_of(node, body)))
}

/// The first branch of a name.
#[cycle(conversion)]
fn branch(
    alloc: Global,
    of: ListKind,
    word: Word,
    nodes: &[Node],
) -> Result<Option<Branch>, NoMemory>
    ensures { IfOk result (λ b. b ≡ Meaning.first_named word (Meaning.branch_by of) (map Meaning.meant nodes.now)) }
{
    for node in nodes {
        if node.name.as_slice() == word.spelled() {
            let body = body(alloc, Kind::Branch(of), node)?;
            return Ok(Some(Branch {
                line: node.line,
                body,
            }));
        }
    }
    Ok(None)
}

/// A condition of its parts.
fn condition_of(
    alloc: Global,
    line: u32,
    expr: Expr,
    so: Option<Branch>,
    otherwise: Option<Branch>,
) -> Element
    ensures { result ≡ Meaning.condition line expr so otherwise }
{
    match so {
        Some(
            Branch {
                line: true_line,
                body,
            },
        ) => Element::If {
            line,
            expr,
            true_line,
            if_true: body,
            if_false: otherwise,
        },
        None => Element::If {
            line,
            expr,
            true_line: 0,
            if_true: Items::new(alloc),
            if_false: otherwise,
        },
    }
}
