ghost use Rattle.std.specs.Prelude.{◌≡◌, ◌++◌, ◌∷◌, [], slice_get, map, IfOk, OnOk};
ghost use Rattle.std.specs.Option.{option_flatten, option_map};
ghost use Rattle.psml_out.specs.Summaries as naming;
ghost use Rattle.psml_out.specs.Summaries.{item_pieces, piece, pieces, sections, summaries_of, template_place, template_sections};

use db_model::{
    Bytes, CheckedDb, Database, HeaderPart, Name, NoMemory, SectionDecl, Sequence, SumItem,
    SumTemplate, place_of,
};
use std::alloc::Global;

/// What is added to the text of a section.
#[derive(Drop)]
pub enum Content {
    /// This text.
    Text(Bytes),
    /// The value of the last field of this name, as it is shown.
    Field(Name),
    /// A part of the packet's header.
    Header(HeaderPart),
}

/// What an item of a sum template adds, with the number of the section to whose text it is added.
#[derive(Drop)]
pub struct Piece {
    pub section: usize,
    pub content: Content,
}

/// The pieces of a sum template, in order.
type Pieces = Sequence<Piece>;

/// What is added to the text of one section, in order.
pub type Contents = Sequence<Content>;

/// What a database says of its summaries, its names resolved, so that no output looks for a section or a template.
#[derive(Drop)]
pub struct Summaries {
    /// What each sum template adds to each section.
    templates: Sequence<Sequence<Contents>>,
    /// The place of the sum template of each protocol, where it has one.
    protocols: Sequence<Option<usize>>,
}

impl Summaries {
    /// Made once for a database, before any packet.
    #[tactic(auto, unfolding(crate::specs::Summaries::summaries_of))]
    pub fn of(alloc: Global, db: &CheckedDb) -> Result<Summaries, NoMemory>
        ensures { IfOk result (λ s. s ≡ summaries_of db.now) }
    {
        let database = db.database();
        Ok(Summaries {
            templates: all_sections(
                alloc,
                sections_of(database),
                database.sum_templates.as_slice(),
            )?,
            protocols: template_places(alloc, database)?,
        })
    }

    /// The place of the sum template of the protocol of this number, None where it has none.
    fn template_of(&self, protocol: u16) -> Option<usize>
        ensures { result ≡ option_flatten (slice_get self.now.protocols protocol) }
    {
        match self.protocols.get(protocol as usize) {
            Some(place) => *place,
            None => None,
        }
    }

    /// What the protocol of this number adds to each section, nothing where it has no sum template.
    fn sections_of(&self, protocol: u16) -> &[Contents]
        ensures { result.now
            ≡ naming.sections_at self.now.templates (option_flatten (slice_get self.now.protocols protocol)) }
    {
        match self.template_of(protocol) {
            Some(place) => match self.templates.get(place) {
                Some(sections) => sections.as_slice(),
                None => &[],
            },
            None => &[],
        }
    }

    /// What the protocol of this number adds to the section of this number.
    pub fn contents_of(&self, protocol: u16, section: usize) -> &[Content]
        ensures { result.now ≡ naming.contents_of self.now protocol section }
    {
        match self.sections_of(protocol).get(section) {
            Some(contents) => contents.as_slice(),
            None => &[],
        }
    }
}

/// What threads may share.
trait Shared: Send + Sync {}

impl Shared for Summaries {}

/// The sections of a database, in order.
pub fn sections_of(database: &Database) -> &[SectionDecl]
    ensures { result.now ≡ sections database.now }
{
    match &database.sum_struct {
        Some(declared) => declared.sections.as_slice(),
        None => &[],
    }
}

fn all_sections(
    alloc: Global,
    declared: &[SectionDecl],
    templates: &[SumTemplate],
) -> Result<Sequence<Sequence<Contents>>, NoMemory>
    ensures { IfOk result (λ all. all ≡ map (template_sections declared.now) templates.now) }
{
    let mut all = Sequence::new(alloc);
    for template in templates {
        all.push(sections_of_template(alloc, declared, template)?)?;
    }
    Ok(all)
}

fn sections_of_template(
    alloc: Global,
    declared: &[SectionDecl],
    template: &SumTemplate,
) -> Result<Sequence<Contents>, NoMemory>
    ensures { IfOk result (λ all. all ≡ template_sections declared.now template.now) }
{
    let pieces = pieces_of_items(alloc, declared, template.items.as_slice())?;
    by_section(alloc, declared.len(), pieces.as_slice())
}

/// What pieces add to each of so many sections.
#[tactic(auto, using(crate::proofs::BySection::one_more_section))]
fn by_section(alloc: Global, count: usize, pieces: &[Piece]) -> Result<Sequence<Contents>, NoMemory>
    ensures { IfOk result (λ all. all ≡ naming.by_section count pieces.now) }
{
    let mut all = Sequence::new(alloc);
    for section in 0..count {
        all.push(contents_for(alloc, section, pieces)?)?;
    }
    Ok(all)
}

/// What pieces add to the section of this number.
#[tactic(auto, using(crate::proofs::BySection::one_more_piece))]
fn contents_for(alloc: Global, section: usize, pieces: &[Piece]) -> Result<Contents, NoMemory>
    ensures { IfOk result (λ all. all ≡ naming.contents_for section pieces.now) }
{
    let mut all = Contents::new(alloc);
    for piece in pieces {
        add_content(alloc, section, piece, &mut all)?;
    }
    Ok(all)
}

/// Adds what a piece adds to the section of this number.
fn add_content(
    alloc: Global,
    section: usize,
    piece: &Piece,
    all: &mut Contents,
) -> Result<(), NoMemory>
    ensures { OnOk result (all.new ≡ all.old ++ naming.contents_for section (piece.now ∷ [])) }
{
    if piece.section == section {
        all.push(copied(alloc, &piece.content)?)
    } else {
        Ok(())
    }
}

/// The same content once more.
fn copied(alloc: Global, content: &Content) -> Result<Content, NoMemory>
    ensures { IfOk result (λ copy. copy ≡ content.now) }
{
    match content {
        Content::Text(value) => Ok(Content::Text(value.clone()?)),
        Content::Field(name) => Ok(Content::Field(Name::copy_of(alloc, name.as_slice())?)),
        Content::Header(part) => Ok(Content::Header(*part)),
    }
}

/// The pieces of the items of a template. At its start the first section is the current one.
fn pieces_of_items(
    alloc: Global,
    declared: &[SectionDecl],
    items: &[SumItem],
) -> Result<Pieces, NoMemory>
    ensures { IfOk result (λ all. all ≡ pieces declared.now 0 items.now) }
{
    let mut all = Pieces::new(alloc);
    let mut current = 0;
    for item in items {
        add_item(alloc, item, current, &mut all)?;
        current = section_behind(declared, current, item);
    }
    Ok(all)
}

/// The section that is the current one behind an item.
fn section_behind(declared: &[SectionDecl], current: usize, item: &SumItem) -> usize
    ensures { result ≡ naming.section_behind declared.now current item.now }
{
    match item {
        SumItem::Section { name, .. } => place_of(name.as_slice(), declared),
        _ => current,
    }
}

/// Adds the piece of an item, where it has one.
fn add_item(alloc: Global, item: &SumItem, current: usize, all: &mut Pieces) -> Result<(), NoMemory>
    ensures { OnOk result (all.new ≡ all.old ++ item_pieces current item.now) }
{
    match item {
        SumItem::Section { .. } => Ok(()),
        SumItem::Text { value, .. } => add_piece(all, current, Content::Text(value.clone()?)),
        SumItem::ProtoField { name, .. } => {
            let name = Name::copy_of(alloc, name.as_slice())?;
            add_piece(all, current, Content::Field(name))
        }
        SumItem::PacketHdr { value, .. } => add_piece(all, current, Content::Header(*value)),
    }
}

fn add_piece(all: &mut Pieces, section: usize, content: Content) -> Result<(), NoMemory>
    ensures { OnOk result (all.new ≡ all.old ++ piece section content ∷ []) }
{
    all.push(Piece { section, content })
}

fn template_places(alloc: Global, database: &Database) -> Result<Sequence<Option<usize>>, NoMemory>
    ensures { IfOk result (λ places. places ≡ naming.template_places database.now) }
{
    let templates = database.sum_templates.as_slice();
    let mut places = Sequence::new(alloc);
    for protocol in database.protocols.as_slice() {
        places.push(place_of_template(templates, &protocol.showsum))?;
    }
    Ok(places)
}

fn place_of_template(templates: &[SumTemplate], showsum: &Option<Name>) -> Option<usize>
    ensures { result ≡ option_map (template_place templates.now) showsum.now }
{
    match showsum {
        Some(name) => Some(place_of(name.as_slice(), templates)),
        None => None,
    }
}
