//! Names that are used by declarations outside of protocols, and the types of their literals.

ghost use Rattle.std.specs.Prelude.{◌≡◌, map};
ghost use Rattle.db_cause.specs.declared.cause.Cause.TheVariants as cause;
ghost use Rattle.db_model.specs.Lines.{over};
ghost use Rattle.db_model.specs.NameFaults;
ghost use Rattle.db_model.specs.TypeFaults;
ghost use Rattle.db_check.specs.First.{first};
ghost use Rattle.db_check.specs.Known.{IsKnown};
ghost use Rattle.db_check.specs.Uses.{literal_lines, type_lines, template_lines};
ghost use Rattle.db_model.specs.Typing.{is_among};

use crate::first::at_line;
use crate::known::Known;
use crate::repeats::is_one_of;
use db_cause::Cause;
use db_model::{Fault, Literal, Name, SumItem, SumStruct, SumTemplate, Ty, VarDecl};

fn literal_is_unknown(literal: &Literal, known: &Known) -> bool
    requires { IsKnown known.now }
    ensures { result ≡ NameFaults.literal_is_unknown known.now.database.now literal.now }
{
    match literal {
        Literal::Protocol(name) => !known.has_protocol(name.as_slice()),
        _ => false,
    }
}

/// Whether a literal has another type than its variable. A protocol that isn't declared has none.
fn literal_is_wrong(ty: Ty, literal: &Literal, known: &Known) -> bool
    requires { IsKnown known.now }
    ensures { result ≡ TypeFaults.literal_is_wrong known.now.database.now ty literal.now }
{
    match literal {
        Literal::Number(_) => ty != Ty::Num,
        Literal::Text(_) => ty != Ty::Buf,
        Literal::Protocol(name) => known.has_protocol(name.as_slice()) && ty != Ty::Proto,
    }
}

pub fn unknown_literals(variables: &[VarDecl], known: &Known) -> Option<Fault>
    requires { IsKnown known.now }
    ensures { result ≡ first cause.Undeclared (over (literal_lines known.now.database.now) variables.now) }
{
    let mut found = None;
    for variable in variables {
        let wrong = literal_is_unknown(&variable.value, known);
        found = Fault::earlier(found, at_line(variable.line, Cause::Undeclared, wrong));
    }
    found
}

pub fn wrong_literals(variables: &[VarDecl], known: &Known) -> Option<Fault>
    requires { IsKnown known.now }
    ensures { result ≡ first cause.WrongType (over (type_lines known.now.database.now) variables.now) }
{
    let mut found = None;
    for variable in variables {
        let wrong = literal_is_wrong(variable.ty, &variable.value, known);
        found = Fault::earlier(found, at_line(variable.line, Cause::WrongType, wrong));
    }
    found
}

/// Whether a summary has a section of this name.
fn has_section(summary: &Option<SumStruct>, name: &Name) -> bool
    ensures { result ≡ is_among name.now (NameFaults.sections_of summary.now) }
{
    match summary {
        None => false,
        Some(summary) => is_one_of(name.as_slice(), summary.sections.as_slice()),
    }
}

fn of_item(item: &SumItem, known: &Known) -> Option<Fault>
    ensures { result ≡ first cause.Undeclared (NameFaults.item_41 known.now.database.now item.now) }
{
    match item {
        SumItem::Section { line, name } => {
            at_line(
                *line,
                Cause::Undeclared,
                !has_section(&known.database.sum_struct, name),
            )
        }
        _ => None,
    }
}

fn of_items(items: &[SumItem], known: &Known) -> Option<Fault>
    ensures { result ≡ first cause.Undeclared (over (NameFaults.item_41 known.now.database.now) items.now) }
{
    let mut found = None;
    for item in items {
        found = Fault::earlier(found, of_item(item, known));
    }
    found
}

pub fn of_templates(templates: &[SumTemplate], known: &Known) -> Option<Fault>
    ensures { result ≡ first cause.Undeclared (over (template_lines known.now.database.now) templates.now) }
{
    let mut found = None;
    for template in templates {
        found = Fault::earlier(found, of_items(template.items.as_slice(), known));
    }
    found
}
