use crate::case::Case;
use std::io;

/// Whether a case comes out as it says. What came of one that doesn't is printed.
pub fn comes(rt: &(impl AllocGlobal + Print), head: &str, case: &Case) -> io::Result<bool> {
    match case.found(rt.alloc()) {
        Some(found) => {
            let holds = found.as_str() == case.wanted();
            if !holds {
                println!(rt; "{head}: this came")?;
                println!(rt; "{}", found.as_str())?;
            }
            Ok(holds)
        }
        None => {
            println!(rt; "{head}: it isn't decoded")?;
            Ok(false)
        }
    }
}
