use db_model::NoMemory;
use expr_text::{ExprFail, number_of, parse_expr, print_expr};
use std::alloc::{AllocError, Global};
use std::test::Fail;

/// The place and the code of a text's fault.
type Fault = Option<(u32, u8)>;

/// Texts with their faults, or none where they are expressions.
const CASES: [(&[u8], Fault); 102] = [
    (b"1+2*3", None),
    (b"3-5", None),
    (b"7 mod 0", None),
    (b"'abc'[1:3]", None),
    (b"buf2int('\\x01\\x02')", None),
    (b"buf2int('')", None),
    (b"int2buf(256,1)", None),
    (b"4294967296", Some((0, 3))),
    (b"1 == 1 == 1", Some((7, 1))),
    (b"(1", Some((2, 2))),
    (b"1+2*3 == 7 and not 0", None),
    (b"", Some((0, 2))),
    (b"   ", Some((3, 2))),
    (b"\t1\n+\r1 ", None),
    (b"4294967295", None),
    (b"0000000001", None),
    (b"12345678901", Some((0, 3))),
    (b"00000000001", Some((0, 3))),
    (b"0xffffFFFF", None),
    (b"0x100000000", Some((0, 3))),
    (b"0x", Some((1, 1))),
    (b"0xg", Some((1, 1))),
    (b"0x1g", Some((3, 1))),
    (b"1a", Some((1, 1))),
    (b"1_", Some((1, 1))),
    (b"1 a", Some((2, 1))),
    (b"a 99999999999", Some((2, 3))),
    (b"99999999999a", Some((0, 3))),
    (b"$a.b", None),
    (b"$a .b", Some((3, 1))),
    (b"$a.", Some((2, 1))),
    (b"$a. b", Some((2, 1))),
    (b"$a.or", Some((2, 1))),
    (b"$", Some((0, 1))),
    (b"$or", Some((0, 1))),
    (b"$ a", Some((0, 1))),
    (b"#or", Some((0, 1))),
    (b"# a", Some((0, 1))),
    (b"a.b", Some((1, 1))),
    (b"1 =", Some((2, 1))),
    (b"1 !", Some((2, 1))),
    (b"1 = 1", Some((2, 1))),
    (b"1 != 1", None),
    (b"'a b'", None),
    (b"'\\x41\\\\\\''", None),
    (b"'a", Some((2, 2))),
    (b"'a\\", Some((3, 2))),
    (b"'\\x4", Some((4, 2))),
    (b"'\\q'", Some((0, 1))),
    (b"'\\x4g'", Some((0, 1))),
    (b"'\n'", Some((0, 1))),
    (b"1 'a", Some((2, 1))),
    (b"not 1 == 2", None),
    (b"not not 1", None),
    (b"1 == not 2", Some((5, 1))),
    (b"1 + not 2", Some((4, 1))),
    (b"1 and or", Some((6, 1))),
    (b"1 and", Some((5, 2))),
    (b"a[1:2][0:1]", None),
    (b"a[1]", Some((3, 1))),
    (b"a[1:2", Some((5, 2))),
    (b"int2buf(1,a)", Some((10, 1))),
    (b"int2buf(1)", Some((9, 1))),
    (b"hasstring(a,b)", Some((12, 1))),
    (b"ispresent(1)", Some((10, 1))),
    (b"buflen 1", Some((7, 1))),
    (b"checklookuptable(t)", None),
    (b"checklookuptable(1)", Some((17, 1))),
    (b"checklookuptable(t 1)", Some((19, 1))),
    (b")", Some((0, 1))),
    (b"()", Some((1, 1))),
    (b"1)", Some((1, 1))),
    (b"1,2", Some((1, 1))),
    (b"1 @", Some((2, 1))),
    (
        b"abcdefghabcdefghabcdefghabcdefghabcdefghabcdefghabcdefghabcdefgh",
        None,
    ),
    (
        b"abcdefghabcdefghabcdefghabcdefghabcdefghabcdefghabcdefghabcdefghi",
        Some((0, 1)),
    ),
    (b"7", None),
    (b"0x1f", None),
    (b"'abc'", None),
    (b"'\\x00\\x01'", None),
    (b"'it\\'s'", None),
    (b"#udp", None),
    (b"head", None),
    (b"$count", None),
    (b"$packetlength", None),
    (b"$sessions.next", None),
    (b"a bitwand b bitwor c mod d", None),
    (b"a le b", None),
    (b"head[0:2]", None),
    (b"buf2int(head[0:2])", None),
    (b"buflen(head)", None),
    (b"int2buf($count, 2)", None),
    (b"hasstring(head, 'GET')", None),
    (b"ispresent(head)", None),
    (b"checklookuptable(sessions, $src, $dst)", None),
    (b"checkupdatelookuptable(sessions, $src, $dst)", None),
    (b"7 - 2 - 1", None),
    (b"(1 == 1) == 1", None),
    (b"not a == b", None),
    (b"a == (not b)", None),
    (b"a == not b", Some((5, 1))),
    (EVERY_FORM, None),
];

/// A text with every form.
const EVERY_FORM: &[u8] = b"checkupdatelookuptable(t, #p, a[1:2]) or not ispresent(f) and \
buf2int('\\x01') + buflen($x) - 2 * 3 / 4 mod 5 bitwor 6 bitwand 7 ge $t.d \
or hasstring(int2buf(1, 2), 'a') == checklookuptable(t)";

/// Texts at the limits, each a front, a piece so many times, and a back.
const LIMITS: [(&[u8], &[u8], usize, &[u8], Fault); 7] = [
    (b"1", b" ", 1_023, b"", None),
    (b"1", b" ", 1_024, b"", Some((0, 4))),
    (b"", b"(", 1_024, b"", Some((1_024, 2))),
    (b"checklookuptable(t", b",1", 255, b")", None),
    (b"checklookuptable(t", b",1", 256, b")", Some((531, 4))),
    (b"((", b"not ", 31, b"1))", None),
    (b"", b"not ", 32, b"1", Some((129, 4))),
];

/// Texts with the canonical texts of their expressions.
const CANONICAL: [(&[u8], &[u8]); 19] = [
    (b"1+2*3 == 7 and not 0", b"((1 + (2 * 3)) == 7) and (not 0)"),
    (b"0x1f", b"31"),
    (b"'it\\'s \\x00\\\\\\x41\\xff'", b"'it\\'s \\x00\\\\A\\xff'"),
    (b"#udp", b"#udp"),
    (b" head", b"head"),
    (b"$count", b"$count"),
    (b"$sessions.next", b"$sessions.next"),
    (b"7-2-1", b"(7 - 2) - 1"),
    (
        b"a bitwor b bitwand c or d",
        b"(a bitwor (b bitwand c)) or d",
    ),
    (b"not a != b", b"not (a != b)"),
    (b"a[ 1 : 2+3 ][0:1]", b"a[1:2 + 3][0:1]"),
    (b"(not a)[0:1]", b"(not a)[0:1]"),
    (b"buf2int((head))", b"buf2int(head)"),
    (b"buflen(a mod b)", b"buflen(a mod b)"),
    (b"int2buf(1 lt 2,2)", b"int2buf(1 lt 2, 2)"),
    (b"hasstring(head,'GET')", b"hasstring(head, 'GET')"),
    (b"ispresent( head )", b"ispresent(head)"),
    (b"checklookuptable(t,$a,$b)", b"checklookuptable(t, $a, $b)"),
    (b"checkupdatelookuptable(t)", b"checkupdatelookuptable(t)"),
];

/// Texts with the number that each of them is, or none.
const NUMBERS: [(&[u8], Option<u32>); 21] = [
    (b"0", Some(0)),
    (b"9", Some(9)),
    (b"0000000010", Some(10)),
    (b"00000000010", None),
    (b"4294967295", Some(4_294_967_295)),
    (b"4294967296", None),
    (b"9999999999", None),
    (b"0x0", Some(0)),
    (b"0x1f", Some(31)),
    (b"0xffFFFFff", Some(4_294_967_295)),
    (b"0x000000001", None),
    (b"0x", None),
    (b"0xg", None),
    (b"0x1g", None),
    (b"0X1", None),
    (b"", None),
    (b" 1", None),
    (b"1 ", None),
    (b"+1", None),
    (b"1a", None),
    (b"a", None),
];

/// Whether a text has exactly this fault, or none.
fn has_fault(alloc: Global, text: &[u8], fault: Fault) -> Result<bool, NoMemory> {
    match parse_expr(alloc, text) {
        Ok(_) => Ok(fault.is_none()),
        Err(ExprFail::Fault { at, code }) => Ok(fault == Some((at, code))),
        Err(ExprFail::NoMemory) => Err(NoMemory),
    }
}

/// Whether a text is exactly this number, or none.
fn has_number(text: &[u8], number: Option<u32>) -> bool {
    number_of(text) == number
}

fn repeated(
    alloc: Global,
    front: &[u8],
    piece: &[u8],
    count: usize,
    back: &[u8],
) -> Result<Vec<u8>, AllocError> {
    let mut text = Vec::from_slice(alloc, front)?;
    for _ in 0..count {
        text.extend_from_slice(piece)?;
    }
    text.extend_from_slice(back)?;
    Ok(text)
}

/// Whether a text is an expression with this canonical text.
fn has_canonical(alloc: Global, text: &[u8], canonical: &[u8]) -> Result<bool, ExprFail> {
    let e = parse_expr(alloc, text)?;
    let printed = print_expr(alloc, &e)?;
    Ok(printed.as_slice() == canonical)
}

#[test]
fn each_fault_has_its_place_and_code(rt: HostRuntime) -> Result<(), Fail> {
    for (text, fault) in &CASES {
        let is_so = has_fault(rt.alloc(), text, *fault)?;
        assert!(rt; is_so);
    }
    Ok(())
}

#[test]
fn limits_are_where_they_are_said_to_be(rt: HostRuntime) -> Result<(), Fail> {
    for (front, piece, count, back, fault) in &LIMITS {
        let text = repeated(rt.alloc(), front, piece, *count, back)?;
        let is_so = has_fault(rt.alloc(), text.as_slice(), *fault)?;
        assert!(rt; is_so);
    }
    Ok(())
}

#[test]
fn canonical_texts_are_printed_and_read_back(rt: HostRuntime) -> Result<(), Fail> {
    for (text, canonical) in &CANONICAL {
        let is_printed = has_canonical(rt.alloc(), text, canonical)?;
        assert!(rt; is_printed);
        let is_read_back = has_canonical(rt.alloc(), canonical, canonical)?;
        assert!(rt; is_read_back);
    }
    Ok(())
}

#[test]
fn a_number_is_a_whole_text(rt: HostRuntime) -> Result<(), Fail> {
    for (text, number) in &NUMBERS {
        let is_so = has_number(text, *number);
        assert!(rt; is_so);
    }
    Ok(())
}
