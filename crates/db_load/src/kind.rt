/// The kinds of element lists. A list inside a loop is one of its own, since only there a loopctrl may stand.
#[derive(Clone, Copy)]
pub enum ListKind {
    Fields,
    Looped,
    Code,
    Encap,
}

/// What an element is where it stands. Elements of one name that stand in different places are of different kinds.
#[derive(Clone, Copy)]
pub enum Kind {
    Netpdl,
    Variable,
    Table,
    TableKey,
    TableColumn,
    ShowTemplate,
    SumStruct,
    Section,
    SumTemplate,
    SectionItem,
    TextItem,
    ProtoFieldItem,
    PacketHdrItem,
    Protocol,
    ExecuteCode,
    CodeList,
    Format,
    Fields,
    NamedBlock,
    Block(ListKind),
    IncludeBlock,
    Field,
    Loop,
    LoopCtrl(ListKind),
    Switch(ListKind),
    Case(ListKind),
    Branch(ListKind),
    If(ListKind),
    Assign,
    Update,
    UpdateKey,
    UpdateValue,
    Encapsulation,
    NextProto,
}
