//! The attributes of each kind of element.

ghost use Rattle.std.specs.Prelude.{◌≡◌};
ghost use Rattle.db_load.specs.Rules;

use crate::{Form, Kind, Need, Rule, Word};

macro_rules! rule {
    ($word:ident, $need:expr, $form:ident) => {
        Rule {
            word: Word::$word,
            need: $need,
            form: Form::$form,
        }
    };
}

const NETPDL: [Rule; 4] = [
    rule!(Name, Need::Optional, Text),
    rule!(Version, Need::Optional, Text),
    rule!(Creator, Need::Optional, Text),
    rule!(Date, Need::Optional, Text),
];

const VARIABLE: [Rule; 4] = [
    rule!(Name, Need::Required, VariableName),
    rule!(Type, Need::Required, ValueType),
    rule!(Value, Need::Required, Literal),
    rule!(Validity, Need::Optional, VariableValidity),
];

const TABLE: [Rule; 3] = [
    rule!(Name, Need::Required, Name),
    rule!(ExactEntries, Need::Required, Number),
    rule!(MaskEntries, Need::Required, Number),
];

const TABLE_KEY: [Rule; 2] = [
    rule!(Name, Need::Required, Name),
    rule!(Size, Need::Required, Number),
];

const TABLE_COLUMN: [Rule; 3] = [
    rule!(Name, Need::Required, Name),
    rule!(Type, Need::Required, ValueType),
    rule!(Size, Need::For(Word::Buf), Number),
];

const SHOW_TEMPLATE: [Rule; 4] = [
    rule!(Name, Need::Required, Name),
    rule!(ShowType, Need::Required, ShowType),
    rule!(ShowGrp, Need::Optional, Number),
    rule!(ShowSep, Need::Optional, Separator),
];

const SECTION: [Rule; 1] = [rule!(Name, Need::Required, FilledText)];

/// Of what has a name alone.
const NAMED: [Rule; 1] = [rule!(Name, Need::Required, Name)];

const TEXT_ITEM: [Rule; 1] = [rule!(Value, Need::Required, Text)];

const PACKET_HDR_ITEM: [Rule; 1] = [rule!(Value, Need::Required, HeaderPart)];

const PROTOCOL: [Rule; 3] = [
    rule!(Name, Need::Required, Name),
    rule!(LongName, Need::Optional, Text),
    rule!(ShowSum, Need::Optional, Name),
];

const BLOCK: [Rule; 2] = [
    rule!(Name, Need::Required, Name),
    rule!(LongName, Need::Optional, Text),
];

const FIELD: [Rule; 10] = [
    rule!(Name, Need::Required, Name),
    rule!(Type, Need::Required, FieldType),
    rule!(Size, Need::For(Word::Fixed), Number),
    rule!(Size, Need::For(Word::Bit), Number),
    rule!(Mask, Need::For(Word::Bit), Number),
    rule!(Expr, Need::For(Word::Variable), Expr),
    rule!(Token, Need::For(Word::TokenEnded), Quoted),
    rule!(Align, Need::For(Word::Padding), Number),
    rule!(LongName, Need::Optional, Text),
    rule!(Show, Need::Optional, Name),
];

const LOOP: [Rule; 2] = [
    rule!(Type, Need::Required, LoopType),
    rule!(Expr, Need::Required, Expr),
];

const LOOP_CTRL: [Rule; 1] = [rule!(Type, Need::Required, LoopControl)];

/// Of a switch and of a condition.
const DECISION: [Rule; 1] = [rule!(Expr, Need::Required, Expr)];

const CASE: [Rule; 2] = [
    rule!(Value, Need::Required, Number),
    rule!(MaxValue, Need::Optional, Number),
];

const ASSIGN: [Rule; 2] = [
    rule!(Name, Need::Required, VariableName),
    rule!(Value, Need::Required, Expr),
];

const UPDATE: [Rule; 5] = [
    rule!(Action, Need::Required, UpdateAction),
    rule!(Table, Need::Required, Name),
    rule!(Validity, Need::Required, EntryValidity),
    rule!(KeepTime, Need::Optional, Number),
    rule!(HitTime, Need::Optional, Number),
];

const UPDATE_KEY: [Rule; 2] = [
    rule!(Value, Need::Required, Expr),
    rule!(Mask, Need::Optional, Mask),
];

const UPDATE_VALUE: [Rule; 1] = [rule!(Value, Need::Required, Expr)];

const NEXT_PROTO: [Rule; 1] = [rule!(Proto, Need::Required, Expr)];

/// The attributes that an element of this kind may have.
#[tactic(auto, unfolding(crate::specs::Rules::rules))]
pub fn rules(kind: Kind) -> &'static [Rule]
    ensures { result.now ≡ Rules.rules kind }
{
    match kind {
        Kind::Netpdl => &NETPDL,
        Kind::Variable => &VARIABLE,
        Kind::Table => &TABLE,
        Kind::TableKey => &TABLE_KEY,
        Kind::TableColumn => &TABLE_COLUMN,
        Kind::ShowTemplate => &SHOW_TEMPLATE,
        Kind::Section | Kind::SectionItem => &SECTION,
        Kind::SumTemplate | Kind::ProtoFieldItem | Kind::IncludeBlock => &NAMED,
        Kind::TextItem => &TEXT_ITEM,
        Kind::PacketHdrItem => &PACKET_HDR_ITEM,
        Kind::Protocol => &PROTOCOL,
        Kind::NamedBlock | Kind::Block(_) => &BLOCK,
        Kind::Field => &FIELD,
        Kind::Loop => &LOOP,
        Kind::LoopCtrl(_) => &LOOP_CTRL,
        Kind::Switch(_) | Kind::If(_) => &DECISION,
        Kind::Case(_) => &CASE,
        Kind::Assign => &ASSIGN,
        Kind::Update => &UPDATE,
        Kind::UpdateKey => &UPDATE_KEY,
        Kind::UpdateValue => &UPDATE_VALUE,
        Kind::NextProto => &NEXT_PROTO,
        Kind::SumStruct
        | Kind::ExecuteCode
        | Kind::CodeList
        | Kind::Format
        | Kind::Fields
        | Kind::Branch(_)
        | Kind::Encapsulation => &[],
    }
}
