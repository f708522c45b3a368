ghost use Rattle.std.specs.Prelude.{◌≡◌, IfOk, OnOk, map};
ghost use Rattle.std.specs.Option.{option_map};
ghost use Rattle.db_model.specs.Numbering.{blocks_in, fields_in};
ghost use Rattle.show.specs.Labels.{a_block, a_field, block_label, field_label, labels_in, labels_of_blocks, labels_of_cases, labels_of_element, labels_of_other, labels_of_protocol, none, template_place, then};

use crate::labels::ProtocolLabels;
use crate::naming::{BlockLabel, BlockNaming, FieldLabel, FieldNaming, begun_of};
use db_model::{
    Branch, Bytes, Bytes64, Case, Element, Name, NamedBlock, NoMemory, Protocol, Sequence,
    ShowTemplate, place_of,
};
use std::alloc::Global;

/// The elements of the field list of a protocol.
fn field_list(protocol: &Protocol) -> &[Element]
    ensures { result.now ≡ fields_in protocol.now.format }
{
    match &protocol.format {
        Some(format) => match &format.fields {
            Some(fields) => fields.elements.as_slice(),
            None => &[],
        },
        None => &[],
    }
}

fn named_blocks(protocol: &Protocol) -> &[NamedBlock]
    ensures { result.now ≡ blocks_in protocol.now.format }
{
    match &protocol.format {
        Some(format) => format.blocks.as_slice(),
        None => &[],
    }
}

/// The labels of a protocol, where these are the show templates of its database.
#[tactic(auto, unfolding(crate::specs::Labels::labels_of_protocol))]
pub fn protocol_labels(
    alloc: Global,
    templates: &[ShowTemplate],
    protocol: &Protocol,
) -> Result<ProtocolLabels, NoMemory>
    ensures { IfOk result (λ labels. labels ≡ labels_of_protocol templates.now protocol.now) }
{
    let line = begun_of(
        alloc,
        b"<proto",
        protocol.name.as_slice(),
        &protocol.longname,
    )?;
    let mut labels = ProtocolLabels {
        line: Bytes64::from_vec(line),
        fields: Sequence::new(alloc),
        blocks: Sequence::new(alloc),
    };
    add_elements(alloc, templates, field_list(protocol), &mut labels)?;
    add_blocks(alloc, templates, named_blocks(protocol), &mut labels)?;
    Ok(labels)
}

/// The same longname once more.
fn copied(longname: &Option<Bytes>) -> Result<Option<Bytes>, NoMemory>
    ensures { IfOk result (λ copy. copy ≡ longname.now) }
{
    match longname {
        Some(bytes) => Ok(Some(bytes.clone()?)),
        None => Ok(None),
    }
}

fn place_of_template(templates: &[ShowTemplate], show: &Option<Name>) -> Option<usize>
    ensures { result ≡ option_map (template_place templates.now) show.now }
{
    match show {
        Some(name) => Some(place_of(name.as_slice(), templates)),
        None => None,
    }
}

fn add_block_label(
    alloc: Global,
    name: &Name,
    longname: &Option<Bytes>,
    labels: &mut ProtocolLabels,
) -> Result<(), NoMemory>
    ensures { OnOk result (labels.new ≡ then labels.old (a_block (block_label name.now longname.now))) }
{
    let naming = BlockNaming {
        name: Name::copy_of(alloc, name.as_slice())?,
        longname: copied(longname)?,
    };
    labels.blocks.push(BlockLabel::of(alloc, naming)?)
}

fn add_field_label(
    alloc: Global,
    templates: &[ShowTemplate],
    name: &Name,
    longname: &Option<Bytes>,
    show: &Option<Name>,
    labels: &mut ProtocolLabels,
) -> Result<(), NoMemory>
    ensures { OnOk result (labels.new ≡
        then labels.old (a_field (field_label templates.now name.now longname.now show.now))) }
{
    let naming = FieldNaming {
        name: Name::copy_of(alloc, name.as_slice())?,
        longname: copied(longname)?,
        template: place_of_template(templates, show),
    };
    labels.fields.push(FieldLabel::of(alloc, naming)?)
}

/// Puts labels behind those that are there. The same for all functions below.
fn add_blocks(
    alloc: Global,
    templates: &[ShowTemplate],
    blocks: &[NamedBlock],
    labels: &mut ProtocolLabels,
) -> Result<(), NoMemory>
    ensures { OnOk result (labels.new ≡ then labels.old (labels_of_blocks templates.now blocks.now)) }
{
    for block in blocks {
        add_block_label(alloc, &block.name, &block.longname, labels)?;
        add_elements(alloc, templates, block.body.as_slice(), labels)?;
    }
    Ok(())
}

#[cycle(label_walk)]
fn add_elements(
    alloc: Global,
    templates: &[ShowTemplate],
    elements: &[Element],
    labels: &mut ProtocolLabels,
) -> Result<(), NoMemory>
    ensures { OnOk result (labels.new ≡ then labels.old (labels_in templates.now elements.now)) }
{
    for element in elements {
        add_element(alloc, templates, element, labels)?;
    }
    Ok(())
}

#[cycle(label_walk)]
fn add_element(
    alloc: Global,
    templates: &[ShowTemplate],
    element: &Element,
    labels: &mut ProtocolLabels,
) -> Result<(), NoMemory>
    ensures { OnOk result (labels.new ≡ then labels.old (labels_of_element templates.now element.now)) }
{
    match element {
        Element::Field {
            name,
            longname,
            show,
            ..
        } => add_field_label(alloc, templates, name, longname, show, labels),
        Element::Block {
            name,
            longname,
            body,
            ..
        } => {
            add_block_label(alloc, name, longname, labels)?;
            add_elements(alloc, templates, body.as_slice(), labels)
        }
        Element::Loop { body, .. } => add_elements(alloc, templates, body.as_slice(), labels),
        Element::Switch {
            cases,
            otherwise,
            ..
        } => {
            add_cases(alloc, templates, cases.as_slice(), labels)?;
            add_branch(alloc, templates, otherwise, labels)
        }
        Element::If {
            if_true,
            if_false,
            ..
        } => {
            add_elements(alloc, templates, if_true.as_slice(), labels)?;
            add_branch(alloc, templates, if_false, labels)
        }
        Element::IncludeBlock { .. } => Ok(()),
        Element::LoopCtrl { .. } => Ok(()),
        Element::Assign { .. } => Ok(()),
        Element::Update { .. } => Ok(()),
        Element::NextProto { .. } => Ok(()),
    }
}

#[cycle(label_walk)]
fn add_cases(
    alloc: Global,
    templates: &[ShowTemplate],
    cases: &[Case],
    labels: &mut ProtocolLabels,
) -> Result<(), NoMemory>
    ensures { OnOk result (labels.new ≡ then labels.old (labels_of_cases templates.now cases.now)) }
{
    for case in cases {
        add_elements(alloc, templates, case.body.as_slice(), labels)?;
    }
    Ok(())
}

#[cycle(label_walk)]
fn add_branch(
    alloc: Global,
    templates: &[ShowTemplate],
    branch: &Option<Branch>,
    labels: &mut ProtocolLabels,
) -> Result<(), NoMemory>
    ensures { OnOk result (labels.new ≡ then labels.old (labels_of_other templates.now branch.now)) }
{
    match branch {
        Some(branch) => add_elements(alloc, templates, branch.body.as_slice(), labels),
        None => Ok(()),
    }
}
