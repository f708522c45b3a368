//! The least of all faults of a database.

ghost use Rattle.std.specs.Prelude.{◌≡◌, IfOk};
ghost use Rattle.db_cause.specs.declared.cause.Cause.TheVariants as cause;
ghost use Rattle.db_model.specs.BlockFaults.{fault_45, fault_46};
ghost use Rattle.db_model.specs.NameFaults.{fault_41};
ghost use Rattle.db_model.specs.NameIndex.{IsIndex};
ghost use Rattle.db_model.specs.NumberFaults.{fault_43, fault_44};
ghost use Rattle.db_model.specs.Objection;
ghost use Rattle.db_model.specs.TypeFaults.{fault_42, fault_47};
ghost use Rattle.db_check.specs.First.{first};
ghost use Rattle.db_check.specs.Entries.{excess_lines};
ghost use Rattle.db_check.specs.Known.{IsKnown};

use crate::first::at_line;
use crate::kind::Kind;
use crate::known::Known;
use crate::{nested, numbers, repeats, rows, uses};
use db_cause::Cause;
use db_model::{
    Database, Fault, MOST_PROTOCOLS, MOST_SHOW_TEMPLATES, MOST_SUM_TEMPLATES, MOST_TABLES,
    MOST_VARIABLES, NameIndex, NoMemory, Places,
};
use std::alloc::Global;

/// Names that are used and aren't declared.
#[tactic(auto, using(crate::proofs::Whole::all_41))]
fn of_names(alloc: Global, known: &Known) -> Result<Option<Fault>, NoMemory>
    requires { IsKnown known.now }
    ensures { IfOk result (λ f. f ≡ first cause.Undeclared (fault_41 known.now.database.now)) }
{
    let database = known.database;
    let start = at_line(
        database.line,
        Cause::Undeclared,
        !known.has_protocol(b"startproto"),
    );
    let literals = uses::unknown_literals(database.variables.as_slice(), known);
    let templates = uses::of_templates(database.sum_templates.as_slice(), known);
    let protocols = known.in_protocols(alloc, Kind::Names)?;
    let behind = Fault::earlier(literals, Fault::earlier(templates, protocols));
    Ok(Fault::earlier(start, behind))
}

/// Types that aren't the wanted ones.
#[tactic(auto, using(crate::proofs::Whole::all_42))]
fn of_types(alloc: Global, known: &Known) -> Result<Option<Fault>, NoMemory>
    requires { IsKnown known.now }
    ensures { IfOk result (λ f. f ≡ first cause.WrongType (fault_42 known.now.database.now)) }
{
    let literals = uses::wrong_literals(known.database.variables.as_slice(), known);
    let protocols = known.in_protocols(alloc, Kind::Types)?;
    Ok(Fault::earlier(literals, protocols))
}

/// Declarations of which there are too many.
#[tactic(auto, using(crate::proofs::Whole::counts_are))]
fn of_counts(database: &Database) -> Option<Fault>
    ensures { result ≡ first cause.OutOfLimits (excess_lines database.now) }
{
    let protocols = numbers::too_many(MOST_PROTOCOLS, database.protocols.as_slice());
    let variables = numbers::too_many(MOST_VARIABLES, database.variables.as_slice());
    let tables = numbers::too_many(MOST_TABLES, database.tables.as_slice());
    let shows = numbers::too_many(MOST_SHOW_TEMPLATES, database.show_templates.as_slice());
    let sums = numbers::too_many(MOST_SUM_TEMPLATES, database.sum_templates.as_slice());
    let templates = Fault::earlier(shows, sums);
    let others = Fault::earlier(variables, Fault::earlier(tables, templates));
    Fault::earlier(protocols, others)
}

/// Numbers that are out of their limits.
#[tactic(auto, using(crate::proofs::Whole::all_43))]
fn of_numbers(alloc: Global, known: &Known) -> Result<Option<Fault>, NoMemory>
    requires { IsKnown known.now }
    ensures { IfOk result (λ f. f ≡ first cause.OutOfLimits (fault_43 known.now.database.now)) }
{
    let database = known.database;
    let tables = numbers::of_tables(database.tables.as_slice());
    let shows = numbers::of_templates(database.show_templates.as_slice());
    let protocols = known.in_protocols(alloc, Kind::Numbers)?;
    let behind = Fault::earlier(protocols, of_counts(database));
    Ok(Fault::earlier(tables, Fault::earlier(shows, behind)))
}

/// Bit fields that aren't followed by their like.
#[tactic(auto, using(crate::proofs::Whole::all_44))]
fn of_rows(database: &Database) -> Option<Fault>
    ensures { result ≡ first cause.UnfollowedBits (fault_44 database.now) }
{
    rows::in_protocols(database.protocols.as_slice())
}

/// Updates and look-ups that don't fit their table.
#[tactic(auto, using(crate::proofs::Whole::all_47))]
fn of_tables(alloc: Global, known: &Known) -> Result<Option<Fault>, NoMemory>
    requires { IsKnown known.now }
    ensures { IfOk result (λ f. f ≡ first cause.TableMisfit (fault_47 known.now.database.now)) }
{
    known.in_protocols(alloc, Kind::Tables)
}

/// The least of all faults.
#[tactic(auto, using(crate::proofs::Whole::objection_is))]
fn of_all(alloc: Global, known: &Known) -> Result<Option<Fault>, NoMemory>
    requires { IsKnown known.now }
    ensures { IfOk result (λ f. f ≡ Objection.objection known.now.database.now) }
{
    let again = repeats::in_database(alloc, known.database)?;
    let names = of_names(alloc, known)?;
    let types = of_types(alloc, known)?;
    let numbers = of_numbers(alloc, known)?;
    let rows = of_rows(known.database);
    let blocks = nested::of_protocols(alloc, known)?;
    let tables = of_tables(alloc, known)?;
    let included = Fault::earlier(blocks.cycles, Fault::earlier(blocks.depths, tables));
    let lists = Fault::earlier(numbers, Fault::earlier(rows, included));
    Ok(Fault::earlier(again, Fault::earlier(names, Fault::earlier(types, lists))))
}

/// The fault of the least line, and there of the least code, of all that stand in a database.
pub fn objection(
    alloc: Global,
    database: &Database,
    names: &NameIndex,
) -> Result<Option<Fault>, NoMemory>
    requires { IsIndex database.now names.now }
    ensures { IfOk result (λ f. f ≡ Objection.objection database.now) }
{
    let shows = Places::of(alloc, database.show_templates.as_slice())?;
    let sums = Places::of(alloc, database.sum_templates.as_slice())?;
    let known = Known {
        database,
        names,
        shows: &shows,
        sums: &sums,
    };
    of_all(alloc, &known)
}
