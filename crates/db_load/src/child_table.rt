//! What may stand in each kind of element.

ghost use Rattle.std.specs.Prelude.{◌≡◌};
ghost use Rattle.db_load.specs.Rules;

use crate::{Child, Kind, ListKind, Word};

macro_rules! child {
    ($word:ident, $kind:expr, $least:expr, $most:expr) => {
        Child {
            word: Word::$word,
            kind: $kind,
            least: $least,
            most: $most,
        }
    };
}

const IN_NETPDL: [Child; 6] = [
    child!(Variable, Kind::Variable, 0, None),
    child!(LookupTable, Kind::Table, 0, None),
    child!(ShowTemplate, Kind::ShowTemplate, 0, None),
    child!(ShowSumStruct, Kind::SumStruct, 0, Some(1)),
    child!(ShowSumTemplate, Kind::SumTemplate, 0, None),
    child!(Protocol, Kind::Protocol, 0, None),
];

const IN_TABLE: [Child; 2] = [
    child!(Key, Kind::TableKey, 1, Some(8)),
    child!(Data, Kind::TableColumn, 0, Some(8)),
];

const IN_SUM_STRUCT: [Child; 1] = [child!(Section, Kind::Section, 1, Some(16))];

const IN_SUM_TEMPLATE: [Child; 4] = [
    child!(Section, Kind::SectionItem, 0, None),
    child!(Text, Kind::TextItem, 0, None),
    child!(ProtoField, Kind::ProtoFieldItem, 0, None),
    child!(PacketHdr, Kind::PacketHdrItem, 0, None),
];

const IN_PROTOCOL: [Child; 3] = [
    child!(ExecuteCode, Kind::ExecuteCode, 0, Some(1)),
    child!(Format, Kind::Format, 0, Some(1)),
    child!(Encapsulation, Kind::Encapsulation, 0, Some(1)),
];

const IN_EXECUTE_CODE: [Child; 2] = [
    child!(Before, Kind::CodeList, 0, Some(1)),
    child!(After, Kind::CodeList, 0, Some(1)),
];

const IN_FORMAT: [Child; 2] = [
    child!(Fields, Kind::Fields, 0, Some(1)),
    child!(Block, Kind::NamedBlock, 0, None),
];

/// A field list, inside a loop or in none.
macro_rules! in_fields {
    ($list:expr) => {
        [
            child!(Field, Kind::Field, 0, None),
            child!(Block, Kind::Block($list), 0, None),
            child!(IncludeBlk, Kind::IncludeBlock, 0, None),
            child!(Loop, Kind::Loop, 0, None),
            child!(LoopCtrl, Kind::LoopCtrl($list), 0, None),
            child!(Switch, Kind::Switch($list), 0, None),
            child!(If, Kind::If($list), 0, None),
            child!(AssignVariable, Kind::Assign, 0, None),
            child!(UpdateLookupTable, Kind::Update, 0, None),
        ]
    };
}

/// A switch in a list of this kind, whose cases have lists of the same kind.
macro_rules! in_switch {
    ($list:expr) => {
        [
            child!(Case, Kind::Case($list), 0, None),
            child!(Default, Kind::Branch($list), 0, Some(1)),
        ]
    };
}

/// A condition in a list of this kind.
macro_rules! in_if {
    ($list:expr) => {
        [
            child!(IfTrue, Kind::Branch($list), 1, Some(1)),
            child!(IfFalse, Kind::Branch($list), 0, Some(1)),
        ]
    };
}

const IN_CODE: [Child; 4] = [
    child!(Switch, Kind::Switch(ListKind::Code), 0, None),
    child!(If, Kind::If(ListKind::Code), 0, None),
    child!(AssignVariable, Kind::Assign, 0, None),
    child!(UpdateLookupTable, Kind::Update, 0, None),
];

const IN_ENCAP: [Child; 3] = [
    child!(Switch, Kind::Switch(ListKind::Encap), 0, None),
    child!(If, Kind::If(ListKind::Encap), 0, None),
    child!(NextProto, Kind::NextProto, 0, None),
];

const IN_UPDATE: [Child; 2] = [
    child!(Key, Kind::UpdateKey, 0, None),
    child!(Data, Kind::UpdateValue, 0, None),
];

/// The elements that stand in a list of this kind.
#[tactic(auto, unfolding(crate::specs::Rules::in_list))]
fn in_list(kind: ListKind) -> &'static [Child]
    ensures { result.now ≡ Rules.in_list kind }
{
    match kind {
        ListKind::Fields => &in_fields!(ListKind::Fields),
        ListKind::Looped => &in_fields!(ListKind::Looped),
        ListKind::Code => &IN_CODE,
        ListKind::Encap => &IN_ENCAP,
    }
}

#[tactic(auto, unfolding(crate::specs::Rules::in_switch))]
fn in_switch(kind: ListKind) -> &'static [Child]
    ensures { result.now ≡ Rules.in_switch kind }
{
    match kind {
        ListKind::Fields => &in_switch!(ListKind::Fields),
        ListKind::Looped => &in_switch!(ListKind::Looped),
        ListKind::Code => &in_switch!(ListKind::Code),
        ListKind::Encap => &in_switch!(ListKind::Encap),
    }
}

#[tactic(auto, unfolding(crate::specs::Rules::in_if))]
fn in_if(kind: ListKind) -> &'static [Child]
    ensures { result.now ≡ Rules.in_if kind }
{
    match kind {
        ListKind::Fields => &in_if!(ListKind::Fields),
        ListKind::Looped => &in_if!(ListKind::Looped),
        ListKind::Code => &in_if!(ListKind::Code),
        ListKind::Encap => &in_if!(ListKind::Encap),
    }
}

/// What may stand in an element of this kind, in the order that it has where the order counts.
#[tactic(auto, unfolding(crate::specs::Rules::children))]
pub fn children(kind: Kind) -> &'static [Child]
    ensures { result.now ≡ Rules.children kind }
{
    match kind {
        Kind::Netpdl => &IN_NETPDL,
        Kind::Table => &IN_TABLE,
        Kind::SumStruct => &IN_SUM_STRUCT,
        Kind::SumTemplate => &IN_SUM_TEMPLATE,
        Kind::Protocol => &IN_PROTOCOL,
        Kind::ExecuteCode => &IN_EXECUTE_CODE,
        Kind::CodeList => in_list(ListKind::Code),
        Kind::Format => &IN_FORMAT,
        Kind::Fields | Kind::NamedBlock => in_list(ListKind::Fields),
        Kind::Block(list) | Kind::Case(list) | Kind::Branch(list) => in_list(list),
        Kind::Loop => in_list(ListKind::Looped),
        Kind::Switch(list) => in_switch(list),
        Kind::If(list) => in_if(list),
        Kind::Update => &IN_UPDATE,
        Kind::Encapsulation => in_list(ListKind::Encap),
        Kind::Variable
        | Kind::TableKey
        | Kind::TableColumn
        | Kind::ShowTemplate
        | Kind::Section
        | Kind::SectionItem
        | Kind::TextItem
        | Kind::ProtoFieldItem
        | Kind::PacketHdrItem
        | Kind::IncludeBlock
        | Kind::Field
        | Kind::LoopCtrl(_)
        | Kind::Assign
        | Kind::UpdateKey
        | Kind::UpdateValue
        | Kind::NextProto => &[],
    }
}

/// Whether what stands in an element of this kind has the order of its rows.
#[tactic(auto, unfolding(crate::specs::Rules::is_ordered))]
pub fn is_ordered(kind: Kind) -> bool
    ensures { result ≡ Rules.is_ordered kind }
{
    matches!(
        kind,
        Kind::Table | Kind::Format | Kind::Switch(_) | Kind::If(_) | Kind::Update
    )
}
