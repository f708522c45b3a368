//! The faults of an element itself: what fails of its expressions, its numbers and its names.

ghost use Rattle.std.specs.Prelude.{◌≡◌, ◌++◌, Some, option_map, slice_get};
ghost use Rattle.db_model.specs.Lines.{over};
ghost use Rattle.db_model.specs.Lines;
ghost use Rattle.db_model.specs.TypeFaults;
ghost use Rattle.db_model.specs.TypeFaults.{column_wants};
ghost use Rattle.db_model.specs.Typing.{is_among};
ghost use Rattle.db_model.specs.Special.{special_names};
ghost use Rattle.db_model.specs.declared.database.ColumnDecl.{ColumnDecl};
ghost use Rattle.db_model.specs.declared.value.Ty.TheVariants.{Num};
ghost use Rattle.db_check.specs.Around.{IsAround};
ghost use Rattle.db_check.specs.Around as there;
ghost use Rattle.db_check.specs.First.{first};
ghost use Rattle.db_check.specs.Layer.{own_at};
ghost use Rattle.db_check.specs.Own;
ghost use Rattle.db_check.specs.Own.{cause_of};

use crate::around::Around;
use crate::first::at_line;
use crate::kind::Kind;
use crate::limits::{form_is_outside, is_zero};
use crate::tables::{columns_of, update_misses};
use db_model::{
    Case, ColumnDecl, Element, Expr, Fault, FieldForm, Name, Special, Ty, TypeFault, UpdateKey,
    UpdateValue, Validity,
};
use expr_type::{declared_type, has_undeclared, has_wrong_arity, type_of};

fn is_other(wanted: Option<Ty>, ty: Ty) -> bool
    ensures { result ≡ TypeFaults.is_other wanted ty }
{
    match wanted {
        None => false,
        Some(wanted) => wanted != ty,
    }
}

/// Whether a type isn't the wanted one. A name that isn't declared and a wrong number of keys are other faults.
fn isnt_wanted(wanted: Option<Ty>, ty: Result<Ty, TypeFault>) -> bool
    ensures { result ≡ TypeFaults.isnt_wanted wanted ty }
{
    match ty {
        Ok(ty) => is_other(wanted, ty),
        Err(TypeFault::Mistyped) => true,
        Err(_) => false,
    }
}

/// Whether an expression has a fault of this kind, where its type has to be the wanted one.
fn fails(kind: Kind, wanted: Option<Ty>, e: &Expr, around: &Around) -> bool
    requires { IsAround around.now }
    ensures { result ≡ there.fails around.now kind wanted e.now }
{
    match kind {
        Kind::Names => has_undeclared(e, &around.scope),
        Kind::Types => isnt_wanted(wanted, type_of(e, &around.scope)),
        Kind::Numbers => false,
        Kind::Tables => has_wrong_arity(e, &around.scope),
    }
}

fn form_fails(kind: Kind, form: &FieldForm, around: &Around) -> bool
    requires { IsAround around.now }
    ensures { result ≡ there.form_fails around.now kind form.now }
{
    match form {
        FieldForm::Variable { expr } => fails(kind, Some(Ty::Num), expr, around),
        _ => false,
    }
}

fn lacks_template(show: &Option<Name>, around: &Around) -> bool
    requires { IsAround around.now }
    ensures { result ≡ there.lacks_template around.now show.now }
{
    match show {
        None => false,
        Some(name) => !around.has_template(name.as_slice()),
    }
}

fn field_fails(kind: Kind, form: &FieldForm, show: &Option<Name>, around: &Around) -> bool
    requires { IsAround around.now }
    ensures { result ≡ there.field_fails around.now kind form.now show.now }
{
    match kind {
        Kind::Names => form_fails(kind, form, around) || lacks_template(show, around),
        Kind::Numbers => form_is_outside(form),
        _ => form_fails(kind, form, around),
    }
}

fn include_fails(kind: Kind, name: &Name, around: &Around) -> bool
    requires { IsAround around.now }
    ensures { result ≡ there.include_fails around.now kind name.now }
{
    match kind {
        Kind::Names => !around.has_block(name.as_slice()),
        _ => false,
    }
}

fn is_special(name: &[u8]) -> bool
    ensures { result ≡ is_among name.now special_names }
{
    Special::of(name).is_some()
}

fn assign_fails(kind: Kind, name: &Name, e: &Expr, around: &Around) -> bool
    requires { IsAround around.now }
    ensures { result ≡ there.assign_fails around.now kind name.now e.now }
{
    let name_text = name.as_slice();
    match kind {
        Kind::Names => {
            fails(kind, Some(Ty::Num), e, around)
                || is_special(name_text)
                || !around.scope.declares_variable(name_text)
        }
        Kind::Types => fails(kind, declared_type(name, &around.scope), e, around),
        Kind::Numbers => false,
        Kind::Tables => fails(kind, Some(Ty::Num), e, around),
    }
}

/// How an update treats the entries that it adds.
#[derive(Clone, Copy)]
struct Times {
    validity: Validity,
    keep: Option<u32>,
    hit: Option<u32>,
}

/// An update, as far as it may have faults of its own.
#[derive(Clone, Copy)]
struct Update<'a> {
    table: &'a Name,
    times: Times,
    keys: &'a [UpdateKey],
    row: &'a [UpdateValue],
}

fn update_fails(kind: Kind, update: &Update, around: &Around) -> bool
    requires { IsAround around.now }
    ensures { result ≡ there.update_fails around.now kind update.now }
{
    match kind {
        Kind::Names => !around.scope.has_table(update.table.as_slice()),
        Kind::Types => false,
        Kind::Numbers => is_zero(update.times.keep) || is_zero(update.times.hit),
        Kind::Tables => {
            let scope = &around.scope;
            let at = scope
                .names
                .table_at(scope.database, update.table.as_slice());
            let declared = scope.database.tables.get(at);
            let times = update.times;
            update_misses(
                declared,
                times.validity,
                times.keep,
                times.hit,
                update.keys,
                update.row,
            )
        }
    }
}

fn of_keys(kind: Kind, keys: &[UpdateKey], around: &Around) -> Option<Fault>
    requires { IsAround around.now }
    ensures { result ≡ first (cause_of kind) (over (there.key_lines around.now kind) keys.now) }
{
    let mut found = None;
    for key in keys {
        let wrong = fails(kind, Some(Ty::Buf), &key.value, around);
        found = Fault::earlier(found, at_line(key.line, kind.cause(), wrong));
    }
    found
}

/// The type of the column at a place.
fn wanted_at(columns: &[ColumnDecl], place: usize) -> Option<Ty>
    ensures { result ≡ option_map (λ (c : ColumnDecl). c.ty) (slice_get columns.now place) }
{
    match columns.get(place) {
        Some(column) => Some(column.ty),
        None => None,
    }
}

/// The values of a row, each of which has to have the type of its column.
fn of_row(kind: Kind, columns: &[ColumnDecl], row: &[UpdateValue], around: &Around) -> Option<Fault>
    requires { IsAround around.now }
    ensures { result ≡ first (cause_of kind) (over (there.value_lines around.now kind)
        (column_wants columns.now row.now)) }
{
    let mut found = None;
    for (i, value) in row.iter().enumerate() {
        let wrong = fails(kind, wanted_at(columns, i), &value.value, around);
        found = Fault::earlier(found, at_line(value.line, kind.cause(), wrong));
    }
    found
}

fn case_fails(kind: Kind, case: &Case) -> bool
    ensures { result ≡ Own.case_fails kind case.now.value case.now.maxvalue }
{
    match kind {
        Kind::Numbers => case.maxvalue < case.value,
        _ => false,
    }
}

fn of_cases(kind: Kind, cases: &[Case]) -> Option<Fault>
    ensures { result ≡ first (cause_of kind) (over (Own.case_lines kind) cases.now) }
{
    let mut found = None;
    for case in cases {
        let wrong = case_fails(kind, case);
        found = Fault::earlier(found, at_line(case.line, kind.cause(), wrong));
    }
    found
}

#[tactic(auto, using(crate::proofs::FirstFault::first_append))]
fn of_parts(kind: Kind, update: &Update, around: &Around) -> Option<Fault>
    requires { IsAround around.now }
    ensures { result ≡ first (cause_of kind) (there.update_lines around.now kind update.now) }
{
    let scope = &around.scope;
    let at = scope
        .names
        .table_at(scope.database, update.table.as_slice());
    let columns = columns_of(scope.database.tables.get(at));
    Fault::earlier(
        of_keys(kind, update.keys, around),
        of_row(kind, columns, update.row, around),
    )
}

#[tactic(auto, using(crate::proofs::FirstFault::first_append))]
fn of_update(kind: Kind, line: u32, update: &Update, around: &Around) -> Option<Fault>
    requires { IsAround around.now }
    ensures { result ≡ first (cause_of kind)
        (Lines.at_line line (there.update_fails around.now kind update.now)
        ++ there.update_lines around.now kind update.now) }
{
    let wrong = update_fails(kind, update, around);
    let own = at_line(line, kind.cause(), wrong);
    Fault::earlier(own, of_parts(kind, update, around))
}

/// The least fault of this kind of an element itself.
pub fn own(kind: Kind, element: &Element, around: &Around) -> Option<Fault>
    requires { IsAround around.now }
    ensures { result ≡ first (cause_of kind) (own_at (there.own_in around.now kind) element.now) }
{
    match element {
        Element::Field {
            line,
            form,
            show,
            ..
        } => at_line(*line, kind.cause(), field_fails(kind, form, show, around)),
        Element::IncludeBlock { line, name } => {
            at_line(*line, kind.cause(), include_fails(kind, name, around))
        }
        Element::Loop { line, expr, .. } => of_number(kind, *line, expr, around),
        Element::Switch {
            line,
            expr,
            cases,
            ..
        } => Fault::earlier(
            of_number(kind, *line, expr, around),
            of_cases(kind, cases.as_slice()),
        ),
        Element::If { line, expr, .. } => of_number(kind, *line, expr, around),
        Element::Assign { line, name, value } => {
            at_line(*line, kind.cause(), assign_fails(kind, name, value, around))
        }
        Element::Update {
            line,
            table,
            validity,
            keep,
            hit,
            keys,
            row,
        } => {
            let times = Times {
                validity: *validity,
                keep: *keep,
                hit: *hit,
            };
            let update = Update {
                table,
                times,
                keys: keys.as_slice(),
                row: row.as_slice(),
            };
            of_update(kind, *line, &update, around)
        }
        Element::NextProto { line, proto } => {
            let wrong = fails(kind, Some(Ty::Proto), proto, around);
            at_line(*line, kind.cause(), wrong)
        }
        _ => None,
    }
}

/// An expression that has to give a number.
fn of_number(kind: Kind, line: u32, e: &Expr, around: &Around) -> Option<Fault>
    requires { IsAround around.now }
    ensures { result ≡ first (cause_of kind) (Lines.at_line line (there.fails around.now kind (Some Num) e.now)) }
{
    at_line(line, kind.cause(), fails(kind, Some(Ty::Num), e, around))
}
