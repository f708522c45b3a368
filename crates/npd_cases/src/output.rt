use npd_host::MemHost;
use std::fs;
use std::rt::Files;

/// Whether a proper front of the bytes was taken.
fn is_front(taken: &[u8], whole: &[u8]) -> bool {
    taken.len() < whole.len() && whole.starts_with(taken)
}

/// `NUMBER TEXT`: whether the text stands so often in what was taken.
fn has_count(taken: &[u8], what: &str) -> Option<bool> {
    let (number, text) = what.split_once(' ')?;
    let wanted = number.parse::<usize>().ok()?;
    let text = text.as_bytes();
    if text.is_empty() {
        return None;
    }
    let count = taken
        .windows(text.len())
        .filter(|part| *part == text)
        .count();
    Some(count == wanted)
}

/// Whether it holds what a line says of an output: `unopened NAME`, or what the output has taken: `wrote NAME FILE`
/// for the bytes of FILE, `front NAME FILE` for a proper front of them, `tail NAME FILE` where it ends with them,
/// `counts NAME NUMBER TEXT` where TEXT stands so often in it. None: it says nothing.
pub fn says(
    rt: &(impl Files + AllocGlobal),
    host: &MemHost,
    word: &str,
    rest: &str,
) -> Option<bool> {
    let (name, what) = rest.split_once(' ').unwrap_or((rest, ""));
    let Some(taken) = host.written(name) else {
        return Some(word == "unopened" && what.is_empty());
    };
    if word == "counts" {
        return has_count(taken, what);
    }
    let bytes = fs::read(rt, what).ok()?;
    match word {
        "wrote" => Some(taken == bytes.as_slice()),
        "front" => Some(is_front(taken, bytes.as_slice())),
        "tail" => Some(taken.ends_with(bytes.as_slice())),
        _ => None,
    }
}
