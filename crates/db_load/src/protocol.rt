//! Protocols and the whole database from the elements of a text. What is read together is kept in one value, which
//! each way out behind it lets go at once.

ghost use Rattle.std.specs.Prelude.{◌≡◌, IfOk};
ghost use Rattle.db_load.specs.Pieces;
ghost use Rattle.db_load.specs.Whole;

use crate::element::body;
use crate::from_node::{FromNode, each_of, one_of};
use crate::value::{name_by, optional_name_by, text_by};
use crate::{Kind, Word};
use db_model::{
    Bytes, Database, ElementList, ExecuteCode, Format, Name, NamedBlock, NoMemory, Protocol,
    ShowTemplate, SumStruct, SumTemplate, TableDecl, VarDecl,
};
use db_text::Node;
use sqlite_items::Items;
use std::alloc::Global;

/// The list of elements that the first element of a name holds.
fn one_list(
    alloc: Global,
    word: Word,
    kind: Kind,
    nodes: &[Node],
) -> Result<Option<ElementList>, NoMemory>
    ensures { IfOk result (λ l. l ≡ Whole.one_of word (Whole.list_of kind) nodes.now) }
{
    for node in nodes {
        if node.name.as_slice() == word.spelled() {
            let elements = body(alloc, kind, node)?;
            return Ok(Some(ElementList {
                line: node.line,
                elements,
            }));
        }
    }
    Ok(None)
}

impl FromNode for ExecuteCode {
    ghost means = { Whole.execute_code };

    fn from_node(alloc: Global, node: &Node) -> Result<ExecuteCode, NoMemory> {
        let nodes = node.children.as_slice();
        Ok(ExecuteCode {
            line: node.line,
            before: one_list(alloc, Word::Before, Kind::CodeList, nodes)?,
            after: one_list(alloc, Word::After, Kind::CodeList, nodes)?,
        })
    }
}

impl FromNode for NamedBlock {
    ghost means = { Whole.named_block };

    fn from_node(alloc: Global, node: &Node) -> Result<NamedBlock, NoMemory> {
        Ok(NamedBlock {
            line: node.line,
            name: name_by(alloc, node, Word::Name)?,
            longname: text_by(alloc, node, Word::LongName)?,
            body: body(alloc, Kind::NamedBlock, node)?,
        })
    }
}

impl FromNode for Format {
    ghost means = { Whole.format };

    fn from_node(alloc: Global, node: &Node) -> Result<Format, NoMemory> {
        let nodes = node.children.as_slice();
        Ok(Format {
            line: node.line,
            fields: one_list(alloc, Word::Fields, Kind::Fields, nodes)?,
            blocks: each_of(alloc, Word::Block, nodes)?,
        })
    }
}

/// What stands in a protocol.
#[derive(Drop)]
struct Parts {
    execute_code: Option<ExecuteCode>,
    format: Option<Format>,
    encapsulation: Option<ElementList>,
}

fn parts_in(alloc: Global, nodes: &[Node]) -> Result<Parts, NoMemory>
    ensures { IfOk result (λ p. p ≡ Pieces.parts_in nodes.now) }
{
    Ok(Parts {
        encapsulation: one_list(alloc, Word::Encapsulation, Kind::Encapsulation, nodes)?,
        format: one_of(alloc, Word::Format, nodes)?,
        execute_code: one_of(alloc, Word::ExecuteCode, nodes)?,
    })
}

/// How a protocol is called.
#[derive(Drop)]
struct Heading {
    name: Name,
    longname: Option<Bytes>,
    showsum: Option<Name>,
}

fn heading_of(alloc: Global, node: &Node) -> Result<Heading, NoMemory>
    ensures { IfOk result (λ h. h ≡ Pieces.heading_of node.now) }
{
    Ok(Heading {
        name: name_by(alloc, node, Word::Name)?,
        longname: text_by(alloc, node, Word::LongName)?,
        showsum: optional_name_by(alloc, node, Word::ShowSum)?,
    })
}

fn protocol_of(line: u32, heading: Heading, parts: Parts) -> Protocol
    ensures { result ≡ Pieces.protocol_by line heading parts }
{
    let Heading {
        name,
        longname,
        showsum,
    } = heading;
    let Parts {
        execute_code,
        format,
        encapsulation,
    } = parts;
    Protocol {
        line,
        name,
        longname,
        showsum,
        execute_code,
        format,
        encapsulation,
    }
}

impl FromNode for Protocol {
    ghost means = { Whole.protocol };

    fn from_node(alloc: Global, node: &Node) -> Result<Protocol, NoMemory> {
        let heading = heading_of(alloc, node)?;
        let parts = parts_in(alloc, node.children.as_slice())?;
        Ok(protocol_of(node.line, heading, parts))
    }
}

/// What a database says of itself.
#[derive(Drop)]
struct Titles {
    name: Option<Bytes>,
    version: Option<Bytes>,
    creator: Option<Bytes>,
    date: Option<Bytes>,
}

fn titles_of(alloc: Global, node: &Node) -> Result<Titles, NoMemory>
    ensures { IfOk result (λ t. t ≡ Pieces.titles_of node.now) }
{
    Ok(Titles {
        name: text_by(alloc, node, Word::Name)?,
        version: text_by(alloc, node, Word::Version)?,
        creator: text_by(alloc, node, Word::Creator)?,
        date: text_by(alloc, node, Word::Date)?,
    })
}

/// What a database declares beside its protocols.
#[derive(Drop)]
struct Declarations {
    variables: Items<VarDecl>,
    tables: Items<TableDecl>,
    show_templates: Items<ShowTemplate>,
    sum_struct: Option<SumStruct>,
    sum_templates: Items<SumTemplate>,
}

fn declared_in(alloc: Global, nodes: &[Node]) -> Result<Declarations, NoMemory>
    ensures { IfOk result (λ d. d ≡ Pieces.declared_in nodes.now) }
{
    Ok(Declarations {
        variables: each_of(alloc, Word::Variable, nodes)?,
        tables: each_of(alloc, Word::LookupTable, nodes)?,
        show_templates: each_of(alloc, Word::ShowTemplate, nodes)?,
        sum_templates: each_of(alloc, Word::ShowSumTemplate, nodes)?,
        sum_struct: one_of(alloc, Word::ShowSumStruct, nodes)?,
    })
}

fn whole_of(
    line: u32,
    titles: Titles,
    declarations: Declarations,
    protocols: Items<Protocol>,
) -> Database
    ensures { result ≡ Pieces.whole_by line titles declarations protocols }
{
    let Titles {
        name,
        version,
        creator,
        date,
    } = titles;
    let Declarations {
        variables,
        tables,
        show_templates,
        sum_struct,
        sum_templates,
    } = declarations;
    Database {
        line,
        name,
        version,
        creator,
        date,
        variables,
        tables,
        show_templates,
        sum_struct,
        sum_templates,
        protocols,
    }
}

/// The database that a top element without faults means.
#[tactic(auto, unfolding(crate::specs::Whole::database_of))]
pub fn database_of(alloc: Global, node: &Node) -> Result<Database, NoMemory>
    ensures { IfOk result (λ db. db ≡ Whole.database_of node.now) }
{
    let protocols = each_of(alloc, Word::Protocol, node.children.as_slice())?;
    let titles = titles_of(alloc, node)?;
    let declarations = declared_in(alloc, node.children.as_slice())?;
    Ok(whole_of(node.line, titles, declarations, protocols))
}
