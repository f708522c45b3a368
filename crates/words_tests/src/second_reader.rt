use crate::plans::plan_of;
use clap::{Arg, ArgAction, ArgMatches, Command};
use db_model::Word;
use npd_words::{Plan, WordsFail};
use std::alloc::{AllocError, Global};
use std::test::Fail;

const WORDS: [&str; 10] = [
    "npd", "decode", "--db", "d", "--cap", "c", "--pdml", "p", "--psml", "s",
];

fn option<'a>(alloc: Global, name: &'a str) -> Arg<'a> {
    Arg::new(alloc, name).long(name).action(ArgAction::Set)
}

/// `npd decode` with all of its options.
fn command<'a>(alloc: Global) -> Result<Command<'a>, AllocError> {
    let decode = Command::new(alloc, "decode")
        .arg(option(alloc, "db").required(true))?
        .arg(option(alloc, "cap").required(true))?
        .arg(option(alloc, "pdml"))?
        .arg(option(alloc, "psml"))?
        .arg(option(alloc, "trace"))?
        .arg(option(alloc, "report"))?
        .arg(option(alloc, "workers"))?
        .arg(option(alloc, "window"))?
        .arg(option(alloc, "max-packets"))?;
    Command::new(alloc, "npd").subcommand(decode)
}

fn name(file: &Option<Word>) -> Option<&str> {
    match file {
        Some(file) => Some(file.as_str()),
        None => None,
    }
}

/// Whether the plan of the words has the names that were found in them.
fn has_names(alloc: Global, found: &ArgMatches<'_>) -> Result<bool, WordsFail> {
    let plan = plan_of(alloc, &WORDS[1..])?;
    match &plan {
        Plan::Decode {
            db,
            cap,
            pdml,
            psml,
            trace,
            report,
            ..
        } => Ok(
            found.get_str("db") == Some(db.as_str())
                && found.get_str("cap") == Some(cap.as_str())
                && found.get_str("pdml") == name(pdml)
                && found.get_str("psml") == name(psml)
                && found.get_str("trace") == name(trace)
                && found.get_str("report") == name(report),
        ),
        _ => Ok(false),
    }
}

#[test]
fn another_reader_finds_the_same_names(rt: HostRuntime) -> Result<(), Fail> {
    let alloc = rt.alloc();
    let matches = command(alloc)?.try_get_matches_from(&WORDS)?;
    let (name, decode) = matches.subcommand().ok_or("a subcommand")?;
    assert!(rt; name == "decode");
    let is_so = has_names(alloc, decode)?;
    assert!(rt; is_so);
    Ok(())
}
