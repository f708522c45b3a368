ghost use Rattle.fields.specs.Outcome.{IsAligned};

use db_model::{Bytes, CaseRange, FieldKind};
use encap::choose;
use fields::{Extent, bit_value, extent};
use std::test::Fail;

/// Whether a field of these bytes that begins at `at`, in a protocol that begins at `origin`, ends so before each of
/// the limits.
fn ends(kind: &FieldKind, at: u32, origin: u32, n: u32, wanted: [(u32, Extent); 2]) -> bool
    requires { IsAligned kind.now }
{
    for (limit, end) in wanted {
        if origin > at || at > limit || limit > 8 {
            return false;
        }
        if extent(kind, b"ab\ncd;;e", at, limit, origin, n) != end {
            return false;
        }
    }
    true
}

#[test]
fn extents_at_their_limit_and_one_byte_past_it(rt: HostRuntime) {
    let fixed = [(3, Extent::Size(3)), (2, Extent::Short)];
    assert!(rt; ends(&FieldKind::Fixed(3), 0, 0, 0, fixed));
    let bit = FieldKind::Bit {
        size: 2,
        mask: 0xF0,
    };
    assert!(rt; ends(&bit, 0, 0, 0, [(2, Extent::Size(2)), (1, Extent::Short)]));
    let variable = [(6, Extent::Size(5)), (5, Extent::Short)];
    assert!(rt; ends(&FieldKind::Variable, 1, 0, 5, variable));
    let line = [(3, Extent::Size(3)), (2, Extent::Size(2))];
    assert!(rt; ends(&FieldKind::Line, 0, 0, 0, line));
    let padding = [(5, Extent::Size(2)), (4, Extent::Short)];
    assert!(rt; ends(&FieldKind::Padding(4), 3, 1, 0, padding));
}

#[test]
fn a_token_at_its_limit_and_one_byte_past_it(rt: HostRuntime) -> Result<(), Fail> {
    let token = FieldKind::TokenEnded(Bytes::copy_of(rt.alloc(), b";;")?);
    let found = ends(
        &token,
        3,
        0,
        0,
        [(7, Extent::Size(4)), (6, Extent::Size(3))],
    );
    assert!(rt; found);
    Ok(())
}

fn bits_are(bytes: &[u8], mask: u32, wanted: &[u8]) -> bool {
    !bytes.is_empty()
        && bytes.len() <= 4
        && mask != 0
        && bit_value(bytes, mask).as_slice() == wanted
}

#[test]
fn bit_values_are_shifted_and_keep_their_width(rt: HostRuntime) {
    assert!(rt; bits_are(&[0x12, 0x34], 0x0FF0, &[0x00, 0x23]));
    assert!(rt; bits_are(&[0x80], 0xC0, &[0x02]));
}

#[test]
fn the_first_case_that_holds_the_number(rt: HostRuntime) {
    let cases = [
        CaseRange { low: 5, high: 9 },
        CaseRange { low: 9, high: 12 },
        CaseRange { low: 7, high: 7 },
    ];
    for (v, place) in [
        (4, None),
        (5, Some(0)),
        (9, Some(0)),
        (10, Some(1)),
        (12, Some(1)),
        (13, None),
    ] {
        assert!(rt; choose(&cases, v) == place);
    }
}
