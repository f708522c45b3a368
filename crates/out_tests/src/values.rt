use db_model::{Bytes, MOST_DECIMAL_GROUP, Name, NoMemory, ShowTemplate, ShowType};
use show::show_value;
use std::alloc::Global;
use std::test::Fail;

/// Bytes by a template, nothing where it has no groups of 1 to 4 bytes.
fn shown_by(
    alloc: Global,
    template: &ShowTemplate,
    bytes: &[u8],
) -> Result<Option<Vec<u8>>, NoMemory> {
    if template.group == 0 || template.group > MOST_DECIMAL_GROUP {
        return Ok(None);
    }
    Ok(Some(show_value(alloc, Some(template), bytes)?))
}

/// The same by a template of this type, with groups of this size and this separator.
fn shown(
    alloc: Global,
    show_type: ShowType,
    group: u32,
    separator: u8,
    bytes: &[u8],
) -> Result<Option<Vec<u8>>, NoMemory> {
    let template = ShowTemplate {
        line: 1,
        name: Name::copy_of(alloc, b"shown")?,
        show_type,
        group,
        separator: Bytes::copy_of(alloc, &[separator])?,
    };
    shown_by(alloc, &template, bytes)
}

fn is_text(text: &Option<Vec<u8>>, wanted: &str) -> bool {
    match text {
        Some(text) => text.as_slice() == wanted.as_bytes(),
        None => false,
    }
}

#[test]
fn values_are_shown_by_their_template(rt: HostRuntime) -> Result<(), Fail> {
    for (show_type, group, separator, bytes, wanted) in [
        (
            ShowType::Hex,
            2,
            b':',
            "\x01\x02\x03\x04\x05",
            "0102:0304:05",
        ),
        (ShowType::Dec, 1, b'.', "\x7f\x00\x00\x01", "127.0.0.1"),
        (ShowType::Ascii, 4, b'-', "HI\n", "HI."),
        (ShowType::Hex, 2, b':', "", ""),
    ] {
        let text = shown(rt.alloc(), show_type, group, separator, bytes.as_bytes())?;
        assert!(rt; is_text(&text, wanted));
    }
    Ok(())
}

/// Bytes without a template.
fn plainly(alloc: Global, bytes: &[u8]) -> Result<Option<Vec<u8>>, NoMemory> {
    Ok(Some(show_value(alloc, None, bytes)?))
}

#[test]
fn values_are_hex_without_a_template(rt: HostRuntime) -> Result<(), Fail> {
    for (bytes, wanted) in [("HI\n", "48490a"), ("", "")] {
        let text = plainly(rt.alloc(), bytes.as_bytes())?;
        assert!(rt; is_text(&text, wanted));
    }
    Ok(())
}
