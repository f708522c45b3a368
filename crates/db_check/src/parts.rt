//! The lists of a protocol. One that isn't there is empty.

ghost use Rattle.std.specs.Prelude.{◌≡◌};
ghost use Rattle.std.specs.Option.{option_copied};
ghost use Rattle.db_model.specs.Chain.{before_in, after_in};
ghost use Rattle.db_model.specs.Numbering.{elements_in, fields_in, blocks_in};

use db_model::{Element, ElementList, NamedBlock, Protocol};

fn elements(list: &Option<ElementList>) -> &[Element]
    ensures { result.now ≡ elements_in list.now }
{
    match list {
        Some(list) => list.elements.as_slice(),
        None => &[],
    }
}

pub fn before(protocol: &Protocol) -> &[Element]
    ensures { result.now ≡ before_in protocol.now.execute_code }
{
    match &protocol.execute_code {
        Some(code) => elements(&code.before),
        None => &[],
    }
}

pub fn after(protocol: &Protocol) -> &[Element]
    ensures { result.now ≡ after_in protocol.now.execute_code }
{
    match &protocol.execute_code {
        Some(code) => elements(&code.after),
        None => &[],
    }
}

pub fn fields(protocol: &Protocol) -> &[Element]
    ensures { result.now ≡ fields_in protocol.now.format }
{
    match &protocol.format {
        Some(format) => elements(&format.fields),
        None => &[],
    }
}

pub fn encapsulation(protocol: &Protocol) -> &[Element]
    ensures { result.now ≡ elements_in protocol.now.encapsulation }
{
    elements(&protocol.encapsulation)
}

pub fn named_blocks(protocol: &Protocol) -> &[NamedBlock]
    ensures { result.now ≡ blocks_in protocol.now.format }
{
    match &protocol.format {
        Some(format) => format.blocks.as_slice(),
        None => &[],
    }
}
