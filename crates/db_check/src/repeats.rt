//! Names that are declared twice.

ghost use Rattle.std.specs.Prelude.{◌≡◌, ◌||◌, [], ◌∷◌, map, nat_lt, IfOk};
ghost use Rattle.db_cause.specs.declared.cause.Cause.TheVariants as cause;
ghost use Rattle.db_model.specs.Lines.{over, over_option};
ghost use Rattle.db_model.specs.NameFaults.{repeated, repeated_in_table, repeated_blocks, repeated_sections, payload_name, fault_40};
ghost use Rattle.db_model.specs.Special.{special_names};
ghost use Rattle.db_model.specs.Typing.{is_among};
ghost use Rattle.db_check.specs.First.{first};

use crate::first::at_line;
use crate::located::Located;
use crate::parts;
use db_cause::Cause;
use db_model::{
    Database, Declaration, Fault, NoMemory, Places, Protocol, SumStruct, TableDecl, VarDecl,
    place_of,
};
use std::alloc::Global;

/// Whether a name is that of one of these, of which there are few.
pub fn is_one_of<T: Declaration>(name: &[u8], declared: &[T]) -> bool
    ensures { result ≡ is_among name.now (map T.named declared.now) }
{
    place_of(name, declared) < declared.len()
}

/// Whether a name is declared before this number, or is that of one of these.
fn stands_before<B: Declaration>(place: usize, number: usize, name: &[u8], taken: &[B]) -> bool
    ensures { result ≡ (nat_lt place number || is_among name.now (map B.named taken.now)) }
{
    place < number || is_one_of(name, taken)
}

/// The least fault of declarations of one space, behind a few whose names are taken.
pub fn repeated<B: Declaration, T: Located>(
    alloc: Global,
    taken: &[B],
    declared: &[T],
) -> Result<Option<Fault>, NoMemory>
    ensures { IfOk result (λ f. f
        ≡ first cause.DeclaredAgain (repeated (map B.named taken.now) (map
        (λ d. (T.named d, T.at d)) declared.now))) }
{
    let places = Places::of(alloc, declared)?;
    let mut found = None;
    for (i, declaration) in declared.iter().enumerate() {
        let name = declaration.name();
        let place = places.place_of(name, declared.len());
        let again = stands_before(place, i, name, taken);
        found = Fault::earlier(
            found,
            at_line(declaration.line(), Cause::DeclaredAgain, again),
        );
    }
    Ok(found)
}

/// A name that may not be declared.
struct Reserved {
    name: &'static [u8],
}

impl Declaration for Reserved {
    ghost named = { λ r. r.name.now };

    fn name(&self) -> &[u8] {
        self.name
    }
}

const NO_NAMES: [Reserved; 0] = [];

/// The name of what no protocol decodes.
const PAYLOAD_NAME: [Reserved; 1] = [Reserved { name: b"payload" }];

const SPECIAL_NAMES: [Reserved; 5] = [
    Reserved { name: b"packet" },
    Reserved {
        name: b"packetlength",
    },
    Reserved {
        name: b"currentoffset",
    },
    Reserved {
        name: b"protooffset",
    },
    Reserved { name: b"linktype" },
];

fn of_protocols(alloc: Global, protocols: &[Protocol]) -> Result<Option<Fault>, NoMemory>
    ensures { IfOk result (λ f. f
        ≡ first cause.DeclaredAgain (repeated (payload_name ∷ []) (map
        (λ d. (d.name, d.line)) protocols.now))) }
{
    repeated(alloc, &PAYLOAD_NAME, protocols)
}

fn of_variables(alloc: Global, variables: &[VarDecl]) -> Result<Option<Fault>, NoMemory>
    ensures { IfOk result (λ f. f
        ≡ first cause.DeclaredAgain (repeated special_names (map (λ d. (d.name, d.line)) variables.now))) }
{
    repeated(alloc, &SPECIAL_NAMES, variables)
}

/// Declarations of one space in which each name may be declared.
fn of_all<T: Located>(alloc: Global, declared: &[T]) -> Result<Option<Fault>, NoMemory>
    ensures { IfOk result (λ f. f
        ≡ first cause.DeclaredAgain (repeated [] (map (λ d. (T.named d, T.at d)) declared.now))) }
{
    repeated(alloc, &NO_NAMES, declared)
}

/// The keys and the data of a table are one space.
fn of_table(alloc: Global, table: &TableDecl) -> Result<Option<Fault>, NoMemory>
    ensures { IfOk result (λ f. f ≡ first cause.DeclaredAgain (repeated_in_table table.now)) }
{
    let keys = table.keys.as_slice();
    let again = of_all(alloc, keys)?;
    let columns = repeated(alloc, keys, table.columns.as_slice())?;
    Ok(Fault::earlier(again, columns))
}

fn in_tables(alloc: Global, tables: &[TableDecl]) -> Result<Option<Fault>, NoMemory>
    ensures { IfOk result (λ f. f ≡ first cause.DeclaredAgain (over repeated_in_table tables.now)) }
{
    let mut found = None;
    for table in tables {
        found = Fault::earlier(found, of_table(alloc, table)?);
    }
    Ok(found)
}

fn in_summary(alloc: Global, summary: &Option<SumStruct>) -> Result<Option<Fault>, NoMemory>
    ensures { IfOk result (λ f. f ≡ first cause.DeclaredAgain (over_option repeated_sections summary.now)) }
{
    match summary {
        None => Ok(None),
        Some(summary) => of_all(alloc, summary.sections.as_slice()),
    }
}

fn in_protocols(alloc: Global, protocols: &[Protocol]) -> Result<Option<Fault>, NoMemory>
    ensures { IfOk result (λ f. f ≡ first cause.DeclaredAgain (over repeated_blocks protocols.now)) }
{
    let mut found = None;
    for protocol in protocols {
        let again = of_all(alloc, parts::named_blocks(protocol))?;
        found = Fault::earlier(found, again);
    }
    Ok(found)
}

/// The least fault of a name that is declared before, or may not be declared.
pub fn in_database(alloc: Global, database: &Database) -> Result<Option<Fault>, NoMemory>
    ensures { IfOk result (λ f. f ≡ first cause.DeclaredAgain (fault_40 database.now)) }
{
    let protocols = of_protocols(alloc, database.protocols.as_slice())?;
    let variables = of_variables(alloc, database.variables.as_slice())?;
    let tables = of_all(alloc, database.tables.as_slice())?;
    let columns = in_tables(alloc, database.tables.as_slice())?;
    let shows = of_all(alloc, database.show_templates.as_slice())?;
    let sums = of_all(alloc, database.sum_templates.as_slice())?;
    let sections = in_summary(alloc, &database.sum_struct)?;
    let blocks = in_protocols(alloc, database.protocols.as_slice())?;
    let inner = Fault::earlier(sums, Fault::earlier(sections, blocks));
    let templates = Fault::earlier(shows, inner);
    let in_tables = Fault::earlier(tables, Fault::earlier(columns, templates));
    Ok(Fault::earlier(protocols, Fault::earlier(variables, in_tables)))
}
