//! Databases that a case gives as text, each with what the command `check` has to say of it.

use crate::case::run;
use crate::escape::unescaped;
use npd_host::MemHost;
use std::alloc::Global;

/// How `check` ends over a database of these bytes, as its exit number and line.
fn checked(alloc: Global, bytes: &[u8]) -> Option<String> {
    let mut host = MemHost::new(alloc, 65_536).ok()?;
    let end = match host.put_file("d", bytes) {
        Ok(()) => run(alloc, &mut host, "check --db d"),
        Err(_) => None,
    };
    drop(host);
    end
}

/// `sound TEXT`: whether the database is accepted.
pub fn is_sound(alloc: Global, text: &str) -> Option<bool> {
    let end = checked(alloc, unescaped(alloc, text)?.as_slice())?;
    Some(end.as_str().trim_end() == "0")
}

/// `faulty LINE CODE TEXT`: whether it is refused with this line and this code.
pub fn is_faulty(alloc: Global, rest: &str) -> Option<bool> {
    let (line, rest) = rest.split_once(' ')?;
    let (code, text) = rest.split_once(' ').unwrap_or((rest, ""));
    let end = checked(alloc, unescaped(alloc, text)?.as_slice())?;
    let wanted = format!(in alloc; "6 npd: database {line} {code}").ok()?;
    Some(end.as_str().trim_end() == wanted.as_str())
}
