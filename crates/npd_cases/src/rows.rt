//! The table of elements, cell by cell: `rows.txt` has a line `faulty LINE CODE TEXT` for each.

use crate::judged::is_faulty;
use std::alloc::Global;
use std::rt::Files;
use std::{fs, io};

/// So many rows that don't hold are printed.
const MOST_PRINTED: u32 = 20;

/// Whether a line says what `check` says of its text.
fn row_holds(alloc: Global, line: &str) -> bool {
    match line.strip_prefix("faulty ") {
        Some(row) => is_faulty(alloc, row).unwrap_or(false),
        None => false,
    }
}

/// Whether all rows hold. Behind the first ones that don't stands a line that counts them.
pub fn rows_hold(rt: &(impl Files + AllocGlobal + Print)) -> io::Result<bool> {
    let text = fs::read_to_string(rt, "rows.txt")?;
    let mut count = 0u32;
    let mut failed = 0u32;
    for line in text.lines() {
        count = count.saturating_add(1);
        if !row_holds(rt.alloc(), line) {
            if failed < MOST_PRINTED {
                println!(rt; "rows.txt: {line}")?;
            }
            failed = failed.saturating_add(1);
        }
    }
    println!(rt; "{count} rows, {failed} failed")?;
    Ok(failed == 0)
}
