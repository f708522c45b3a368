ghost use Rattle.std.specs.Prelude.{◌≡◌, ◌++◌, ◌∷◌, [], map, codes, OnOk, IfOk};
ghost use Rattle.std.specs.Fmt.{decimal};
ghost use Rattle.hex.specs.Hex.{encode_lower};
ghost use Rattle.db_model.specs.Name.{spelling};
ghost use Rattle.db_model.specs.declared.naming.ReservedWord.TheVariants as ReservedWord;
ghost use Rattle.expr_text.specs.Printing;

use db_model::{Expr, Name, NoMemory, Operator, ReservedWord};
use hex::encode_to_slice;
use itoa::Buffer;
use std::alloc::Global;

/// The canonical text of an expression. It goes as deep as the expression.
#[tactic(auto, unfolding(crate::specs::Printing::printed))]
pub fn print_expr(alloc: Global, e: &Expr) -> Result<Vec<u8>, NoMemory>
    ensures { IfOk result (λ text. text.items ≡ Printing.printed e.now) }
{
    let mut text = Vec::new(alloc);
    push_expr(&mut text, e)?;
    Ok(text)
}

/// Adds bytes as they are.
fn push(text: &mut Vec<u8>, bytes: &[u8]) -> Result<(), NoMemory>
    ensures { OnOk result (text.new.items ≡ text.old.items ++ bytes.now) }
{
    text.extend_from_slice(bytes)?;
    Ok(())
}

fn push_number(text: &mut Vec<u8>, number: u32) -> Result<(), NoMemory>
    ensures { OnOk result (text.new.items ≡ text.old.items ++ decimal number) }
{
    push(text, Buffer::new().format(number).as_bytes())
}

/// Adds a reserved word.
fn push_word(text: &mut Vec<u8>, word: ReservedWord) -> Result<(), NoMemory>
    ensures { OnOk result (text.new.items ≡ text.old.items ++ spelling word) }
{
    push(text, word.spelling())
}

/// Adds a reserved word with a space on each side.
fn push_spaced(text: &mut Vec<u8>, word: ReservedWord) -> Result<(), NoMemory>
    ensures { OnOk result (text.new.items ≡ text.old.items ++ Printing.spaced word) }
{
    push(text, b" ")?;
    push_word(text, word)?;
    push(text, b" ")
}

/// Adds a reserved word and the parenthesis behind it.
fn push_opening(text: &mut Vec<u8>, word: ReservedWord) -> Result<(), NoMemory>
    ensures { OnOk result (text.new.items ≡ text.old.items ++ (spelling word ++ codes "(")) }
{
    push_word(text, word)?;
    push(text, b"(")
}

// ---- texts

#[tactic(auto, unfolding(crate::specs::Printing::quoted))]
fn push_quoted(text: &mut Vec<u8>, bytes: &[u8]) -> Result<(), NoMemory>
    ensures { OnOk result (text.new.items ≡ text.old.items ++ Printing.quoted bytes.now) }
{
    push(text, b"'")?;
    push_all_escaped(text, bytes)?;
    push(text, b"'")
}

fn push_all_escaped(text: &mut Vec<u8>, bytes: &[u8]) -> Result<(), NoMemory>
    ensures { OnOk result (text.new.items ≡ text.old.items ++ Printing.all_escaped bytes.now) }
{
    for byte in bytes {
        push_escaped(text, *byte)?;
    }
    Ok(())
}

#[tactic(auto, unfolding(crate::specs::Printing::escaped))]
fn push_escaped(text: &mut Vec<u8>, byte: u8) -> Result<(), NoMemory>
    ensures { OnOk result (text.new.items ≡ text.old.items ++ Printing.escaped byte) }
{
    if byte == b'\'' || byte == b'\\' {
        push(text, b"\\")?;
        push(text, &[byte])
    } else if 0x20 <= byte && byte <= 0x7e {
        push(text, &[byte])
    } else {
        push(text, b"\\x")?;
        push_hex(text, byte)
    }
}

fn push_hex(text: &mut Vec<u8>, byte: u8) -> Result<(), NoMemory>
    ensures { OnOk result (text.new.items ≡ text.old.items ++ encode_lower (byte ∷ [])) }
{
    let mut digits = [0; 2];
    // Two digits are what a byte has.
    let _ = encode_to_slice([byte], &mut digits);
    push(text, &digits)
}

// ---- forms

#[cycle(print)]
fn push_expr(text: &mut Vec<u8>, e: &Expr) -> Result<(), NoMemory>
    ensures { OnOk result (text.new.items ≡ text.old.items ++ (Printing.printing e.now).bytes) }
{
    match e {
        Expr::Number(number) => push_number(text, *number),
        Expr::Text(bytes) => push_quoted(text, bytes.as_slice()),
        Expr::Protocol(name) => push_protocol(text, name),
        Expr::Field(name) => push(text, name.as_slice()),
        Expr::Variable(name) => push_variable(text, name),
        Expr::Column { table, column } => push_column(text, table, column),
        Expr::Not(a) => push_negation(text, a.get()),
        Expr::And(a, b) => {
            push_left_word(text, a.get(), ReservedWord::And)?;
            push_operand(text, b.get())
        }
        Expr::Or(a, b) => {
            push_left_word(text, a.get(), ReservedWord::Or)?;
            push_operand(text, b.get())
        }
        Expr::Binary(operator, a, b) => {
            push_left_operator(text, a.get(), *operator)?;
            push_operand(text, b.get())
        }
        Expr::Slice { base, from, count } => {
            push_left(text, base.get(), b"[")?;
            push_before(text, from.get(), b":")?;
            push_before(text, count.get(), b"]")
        }
        Expr::ToNumber(a) => push_number_call(text, a.get()),
        Expr::LengthOf(a) => push_length_call(text, a.get()),
        Expr::ToBytes { value, size } => push_bytes_call(text, value.get(), *size),
        Expr::HasText {
            within,
            text: wanted,
        } => { push_text_call(text, within.get(), wanted.as_slice()) }
        Expr::IsPresent(name) => push_presence_call(text, name),
        Expr::LookUp { table, renew, keys } => {
            push_look_up(text, *renew, table, keys.as_slice())
        }
    }
}

/// An operand, or the base of a slice.
#[cycle(print)]
#[tactic(auto, unfolding(crate::specs::Printing::in_parentheses))]
fn push_operand(text: &mut Vec<u8>, e: &Expr) -> Result<(), NoMemory>
    ensures { OnOk result (text.new.items ≡ text.old.items ++ Printing.operand (Printing.printing e.now)) }
{
    if is_compound(e) {
        push(text, b"(")?;
        push_before(text, e, b")")
    } else {
        push_expr(text, e)
    }
}

/// An operand with what stands behind it.
#[cycle(print)]
fn push_left(text: &mut Vec<u8>, e: &Expr, behind: &[u8]) -> Result<(), NoMemory>
    ensures { OnOk result (text.new.items
        ≡ text.old.items ++ (Printing.operand (Printing.printing e.now) ++ behind.now)) }
{
    push_operand(text, e)?;
    push(text, behind)
}

/// An operand with a reserved word behind it.
#[cycle(print)]
fn push_left_word(text: &mut Vec<u8>, e: &Expr, word: ReservedWord) -> Result<(), NoMemory>
    ensures { OnOk result (text.new.items
        ≡ text.old.items ++ (Printing.operand (Printing.printing e.now) ++ Printing.spaced word)) }
{
    push_operand(text, e)?;
    push_spaced(text, word)
}

/// An operand with an operator behind it.
#[cycle(print)]
fn push_left_operator(text: &mut Vec<u8>, e: &Expr, operator: Operator) -> Result<(), NoMemory>
    ensures { OnOk result (text.new.items
        ≡ text.old.items ++ (Printing.operand (Printing.printing e.now) ++ Printing.operator_text operator)) }
{
    push_operand(text, e)?;
    push_operator(text, operator)
}

/// An expression with what stands behind it.
#[cycle(print)]
fn push_before(text: &mut Vec<u8>, e: &Expr, behind: &[u8]) -> Result<(), NoMemory>
    ensures { OnOk result (text.new.items ≡ text.old.items ++ ((Printing.printing e.now).bytes ++ behind.now)) }
{
    push_expr(text, e)?;
    push(text, behind)
}

/// Whether it is a binary operation or a `not`.
fn is_compound(e: &Expr) -> bool
    ensures { result ≡ (Printing.printing e.now).is_compound }
{
    match e {
        Expr::Not(_) => true,
        Expr::And(_, _) => true,
        Expr::Or(_, _) => true,
        Expr::Binary(_, _, _) => true,
        Expr::Number(_) => false,
        Expr::Text(_) => false,
        Expr::Protocol(_) => false,
        Expr::Field(_) => false,
        Expr::Variable(_) => false,
        Expr::Column { .. } => false,
        Expr::Slice { .. } => false,
        Expr::ToNumber(_) => false,
        Expr::LengthOf(_) => false,
        Expr::ToBytes { .. } => false,
        Expr::HasText { .. } => false,
        Expr::IsPresent(_) => false,
        Expr::LookUp { .. } => false,
    }
}

#[tactic(auto, unfolding(crate::specs::Printing::protocol_text))]
fn push_protocol(text: &mut Vec<u8>, name: &Name) -> Result<(), NoMemory>
    ensures { OnOk result (text.new.items ≡ text.old.items ++ Printing.protocol_text name.now) }
{
    push(text, b"#")?;
    push(text, name.as_slice())
}

#[tactic(auto, unfolding(crate::specs::Printing::variable_text))]
fn push_variable(text: &mut Vec<u8>, name: &Name) -> Result<(), NoMemory>
    ensures { OnOk result (text.new.items ≡ text.old.items ++ Printing.variable_text name.now) }
{
    push(text, b"$")?;
    push(text, name.as_slice())
}

#[tactic(auto, unfolding(crate::specs::Printing::column_text))]
fn push_column(text: &mut Vec<u8>, table: &Name, column: &Name) -> Result<(), NoMemory>
    ensures { OnOk result (text.new.items ≡ text.old.items ++ Printing.column_text table.now column.now) }
{
    push(text, b"$")?;
    push(text, table.as_slice())?;
    push(text, b".")?;
    push(text, column.as_slice())
}

#[cycle(print)]
#[tactic(auto, unfolding(crate::specs::Printing::negation))]
fn push_negation(text: &mut Vec<u8>, a: &Expr) -> Result<(), NoMemory>
    ensures { OnOk result (text.new.items
        ≡ text.old.items ++ Printing.negation (Printing.operand (Printing.printing a.now))) }
{
    push_not(text)?;
    push_operand(text, a)
}

fn push_not(text: &mut Vec<u8>) -> Result<(), NoMemory>
    ensures { OnOk result (text.new.items ≡ text.old.items ++ (spelling ReservedWord.Not ++ codes " ")) }
{
    push_word(text, ReservedWord::Not)?;
    push(text, b" ")
}

/// Adds an operator with a space on each side.
#[tactic(auto, unfolding(crate::specs::Printing::operator_text))]
fn push_operator(text: &mut Vec<u8>, operator: Operator) -> Result<(), NoMemory>
    ensures { OnOk result (text.new.items ≡ text.old.items ++ Printing.operator_text operator) }
{
    match operator {
        Operator::Add => push(text, b" + "),
        Operator::Sub => push(text, b" - "),
        Operator::Mul => push(text, b" * "),
        Operator::Div => push(text, b" / "),
        Operator::Mod => push_spaced(text, ReservedWord::Mod),
        Operator::BitAnd => push_spaced(text, ReservedWord::BitAnd),
        Operator::BitOr => push_spaced(text, ReservedWord::BitOr),
        Operator::Lt => push_spaced(text, ReservedWord::Lt),
        Operator::Le => push_spaced(text, ReservedWord::Le),
        Operator::Gt => push_spaced(text, ReservedWord::Gt),
        Operator::Ge => push_spaced(text, ReservedWord::Ge),
        Operator::Eq => push(text, b" == "),
        Operator::Ne => push(text, b" != "),
    }
}

// ---- calls

/// A number as the last argument.
fn push_last_number(text: &mut Vec<u8>, number: u32) -> Result<(), NoMemory>
    ensures { OnOk result (text.new.items ≡ text.old.items ++ (decimal number ++ codes ")")) }
{
    push_number(text, number)?;
    push(text, b")")
}

/// A text as the last argument.
fn push_last_text(text: &mut Vec<u8>, bytes: &[u8]) -> Result<(), NoMemory>
    ensures { OnOk result (text.new.items ≡ text.old.items ++ (Printing.quoted bytes.now ++ codes ")")) }
{
    push_quoted(text, bytes)?;
    push(text, b")")
}

#[cycle(print)]
#[tactic(auto, unfolding(crate::specs::Printing::number_call, crate::specs::Printing::in_parentheses))]
fn push_number_call(text: &mut Vec<u8>, a: &Expr) -> Result<(), NoMemory>
    ensures { OnOk result (text.new.items ≡ text.old.items ++ Printing.number_call (Printing.printing a.now).bytes) }
{
    push_opening(text, ReservedWord::ToNumber)?;
    push_before(text, a, b")")
}

#[cycle(print)]
#[tactic(auto, unfolding(crate::specs::Printing::length_call, crate::specs::Printing::in_parentheses))]
fn push_length_call(text: &mut Vec<u8>, a: &Expr) -> Result<(), NoMemory>
    ensures { OnOk result (text.new.items ≡ text.old.items ++ Printing.length_call (Printing.printing a.now).bytes) }
{
    push_opening(text, ReservedWord::LengthOf)?;
    push_before(text, a, b")")
}

#[cycle(print)]
#[tactic(auto, unfolding(crate::specs::Printing::bytes_call, crate::specs::Printing::in_parentheses))]
fn push_bytes_call(text: &mut Vec<u8>, a: &Expr, size: u32) -> Result<(), NoMemory>
    ensures { OnOk result (text.new.items
        ≡ text.old.items ++ Printing.bytes_call (Printing.printing a.now).bytes size) }
{
    push_opening(text, ReservedWord::ToBytes)?;
    push_before(text, a, b", ")?;
    push_last_number(text, size)
}

#[cycle(print)]
#[tactic(auto, unfolding(crate::specs::Printing::text_call, crate::specs::Printing::in_parentheses))]
fn push_text_call(text: &mut Vec<u8>, a: &Expr, wanted: &[u8]) -> Result<(), NoMemory>
    ensures { OnOk result (text.new.items
        ≡ text.old.items ++ Printing.text_call (Printing.printing a.now).bytes wanted.now) }
{
    push_opening(text, ReservedWord::HasText)?;
    push_before(text, a, b", ")?;
    push_last_text(text, wanted)
}

#[tactic(auto, unfolding(crate::specs::Printing::presence_call, crate::specs::Printing::in_parentheses))]
fn push_presence_call(text: &mut Vec<u8>, name: &Name) -> Result<(), NoMemory>
    ensures { OnOk result (text.new.items ≡ text.old.items ++ Printing.presence_call name.now) }
{
    push_opening(text, ReservedWord::IsPresent)?;
    push(text, name.as_slice())?;
    push(text, b")")
}

#[cycle(print)]
#[tactic(auto, unfolding(crate::specs::Printing::look_up_call, crate::specs::Printing::in_parentheses))]
fn push_look_up(
    text: &mut Vec<u8>,
    renew: bool,
    table: &Name,
    keys: &[Expr],
) -> Result<(), NoMemory>
    ensures { OnOk result (text.new.items
        ≡ text.old.items ++ Printing.look_up_call renew table.now (Printing.arguments
        (map Printing.printing keys.now))) }
{
    push_table(text, renew, table)?;
    push_arguments(text, keys)?;
    push(text, b")")
}

/// The front of a look-up.
fn push_table(text: &mut Vec<u8>, renew: bool, table: &Name) -> Result<(), NoMemory>
    ensures { OnOk result (text.new.items ≡ text.old.items ++ (Printing.look_up_name renew ++ (codes "("
        ++ table.now))) }
{
    push_opening(text, look_up_word(renew))?;
    push(text, table.as_slice())
}

#[tactic(auto, unfolding(crate::specs::Printing::look_up_name))]
fn look_up_word(renew: bool) -> ReservedWord
    ensures { spelling result ≡ Printing.look_up_name renew }
{
    if renew {
        ReservedWord::RenewingLookUp
    } else {
        ReservedWord::LookUp
    }
}

#[cycle(print)]
fn push_arguments(text: &mut Vec<u8>, keys: &[Expr]) -> Result<(), NoMemory>
    ensures { OnOk result (text.new.items ≡ text.old.items ++ Printing.arguments (map Printing.printing keys.now)) }
{
    for key in keys {
        push(text, b", ")?;
        push_expr(text, key)?;
    }
    Ok(())
}
