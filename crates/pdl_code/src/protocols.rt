//! The code of protocols, and of a whole database.

ghost use Rattle.std.specs.Prelude.{◌≡◌, IfOk};
ghost use Rattle.db_model.specs.Chain.{before_in, after_in};
ghost use Rattle.db_model.specs.Numbering.{elements_in, fields_in, blocks_in};
ghost use Rattle.pdl_code.specs.Coding.{proto_code};
ghost use Rattle.pdl_code.specs.Does.{IsCodeOf};
ghost use Rattle.pdl_code.specs.Written.{WroteOwn, WroteBlocks};

use crate::emit::list;
use crate::place::Place;
use crate::scope::Scope;
use crate::{BlockStart, Code, Op, ProtoCode};
use db_model::{CheckedDb, Element, ElementList, NamedBlock, NoMemory, Protocol};
use sqlite_items::Items;
use std::alloc::Global;

/// The code of a database. It goes as deep as the elements nest.
pub fn compile(alloc: Global, db: &CheckedDb) -> Result<Code, NoMemory>
    ensures { IfOk result (λ code. IsCodeOf db.now code) }
{
    let declared = db.database().protocols.as_slice();
    let mut protocols = Items::new(alloc);
    for (number, protocol) in declared.iter().enumerate() {
        let scope = Scope {
            alloc,
            db,
            protocol: number as u16,
        };
        protocols.push(of_protocol(&scope, protocol)?)?;
    }
    Ok(Code { protocols })
}

fn of_protocol(scope: &Scope<'_>, protocol: &Protocol) -> Result<ProtoCode, NoMemory>
    ensures { IfOk result (λ c. c ≡ proto_code scope.now.db.now scope.now.protocol protocol.now) }
{
    let mut ops = Items::new(scope.alloc);
    let at = own_list(scope, protocol, &mut ops)?;
    let blocks = named(scope, blocks_in(protocol), at, &mut ops)?;
    Ok(ProtoCode { ops, blocks })
}

/// The own list of a protocol, to its end. What stands in the field list alone is given.
fn own_list(scope: &Scope<'_>, protocol: &Protocol, ops: &mut Items<Op>) -> Result<Place, NoMemory>
    ensures { IfOk result (λ at. WroteOwn scope.now protocol.now ops.old ops.new at) }
{
    let fields = list(scope, before_in(protocol), Place::start(), ops)?;
    let after = list(scope, fields_in(protocol), fields, ops)?;
    let encapsulation = list(scope, after_in(protocol), after, ops)?;
    let last = elements_in(&protocol.encapsulation);
    list(scope, last, encapsulation, ops)?;
    ops.push(Op::End)?;
    Ok(after.since(fields))
}

/// The named blocks, each to its end, and where each begins.
fn named(
    scope: &Scope<'_>,
    blocks: &[NamedBlock],
    at: Place,
    ops: &mut Items<Op>,
) -> Result<Items<BlockStart>, NoMemory>
    ensures { IfOk result (λ starts. WroteBlocks scope.now blocks.now at ops.old ops.new starts) }
{
    let mut starts = Items::new(scope.alloc);
    let mut to = at;
    for block in blocks {
        starts.push(BlockStart {
            number: to.blocks,
            at: ops.len(),
        })?;
        let inside = to.behind_block()?;
        to = list(scope, block.body.as_slice(), inside, ops)?;
        ops.push(Op::End)?;
    }
    Ok(starts)
}

fn elements_in(list: &Option<ElementList>) -> &[Element]
    ensures { result.now ≡ elements_in list.now }
{
    match list {
        Some(list) => list.elements.as_slice(),
        None => &[],
    }
}

fn before_in(protocol: &Protocol) -> &[Element]
    ensures { result.now ≡ before_in protocol.now.execute_code }
{
    match &protocol.execute_code {
        Some(code) => elements_in(&code.before),
        None => &[],
    }
}

fn after_in(protocol: &Protocol) -> &[Element]
    ensures { result.now ≡ after_in protocol.now.execute_code }
{
    match &protocol.execute_code {
        Some(code) => elements_in(&code.after),
        None => &[],
    }
}

fn fields_in(protocol: &Protocol) -> &[Element]
    ensures { result.now ≡ fields_in protocol.now.format }
{
    match &protocol.format {
        Some(format) => elements_in(&format.fields),
        None => &[],
    }
}

fn blocks_in(protocol: &Protocol) -> &[NamedBlock]
    ensures { result.now ≡ blocks_in protocol.now.format }
{
    match &protocol.format {
        Some(format) => format.blocks.as_slice(),
        None => &[],
    }
}
