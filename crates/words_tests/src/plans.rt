use db_model::{NoMemory, Word};
use npd_words::{Plan, WordsFail, read_words};
use std::alloc::Global;
use std::test::Fail;

/// Words, and what they come to: a plan with its values in order (`decode` database, capture, PDML, PSML, trace and
/// report, `~` where none is named, then workers, window and packets; `check` the database; `gen` seed, packets,
/// workers and window), or `fault` with the index of a word and a code.
type Case = (&'static [&'static str], &'static str);

/// Words that have a plan.
const PLANS: [Case; 32] = [
    (
        &[
            "decode", "--db", "d", "--cap", "c", "--pdml", "p", "--psml", "s",
        ],
        "decode d c p s ~ ~ 4 64 4294967295",
    ),
    (
        &[
            "decode",
            "--db",
            "d",
            "--cap",
            "c",
            "--pdml",
            "p",
            "--workers",
            "2",
            "--trace",
            "t",
        ],
        "decode d c p ~ t ~ 2 64 4294967295",
    ),
    (
        &[
            "decode",
            "--db",
            "d",
            "--cap",
            "c",
            "--report",
            "r",
            "--max-packets",
            "2",
        ],
        "decode d c ~ ~ ~ r 4 64 2",
    ),
    (&["check", "--db", "d"], "check d"),
    (&["gen", "--seed", "0", "--packets", "1"], "gen 0 1 0 64"),
    (
        &[
            "gen",
            "--seed",
            "7",
            "--packets",
            "2000",
            "--workers",
            "4",
            "--window",
            "256",
        ],
        "gen 7 2000 4 256",
    ),
    // any order, and values behind `=`
    (
        &[
            "decode",
            "--window=1",
            "--cap=c",
            "--workers",
            "0",
            "--db=d",
        ],
        "decode d c ~ ~ ~ ~ 0 1 4294967295",
    ),
    (&["check", "--db=a=b"], "check a=b"),
    (&["check", "--db=-x"], "check -x"),
    (&["check", "--db=--db"], "check --db"),
    (&["check", "--db=="], "check ="),
    (&["check", "--db", "=x"], "check =x"),
    (&["check", "--db", "a=b"], "check a=b"),
    (&["check", "--db", " "], "check  "),
    (&["check", "--db", "db"], "check db"),
    // `-` alone is a value
    (&["check", "--db", "-"], "check -"),
    (&["check", "--db=-"], "check -"),
    // `-` once as an input and once as an output
    (
        &["decode", "--db", "-", "--cap", "c", "--pdml", "-"],
        "decode - c - ~ ~ ~ 4 64 4294967295",
    ),
    (
        &["decode", "--report", "-", "--db", "d", "--cap", "-"],
        "decode d - ~ ~ ~ - 4 64 4294967295",
    ),
    // a number is no name
    (
        &[
            "decode",
            "--db",
            "4",
            "--cap",
            "c",
            "--workers",
            "4",
            "--window",
            "4",
        ],
        "decode 4 c ~ ~ ~ ~ 4 4 4294967295",
    ),
    // the ends of each range
    (
        &["decode", "--db", "d", "--cap", "c", "--workers", "0"],
        "decode d c ~ ~ ~ ~ 0 64 4294967295",
    ),
    (
        &["decode", "--db", "d", "--cap", "c", "--workers", "64"],
        "decode d c ~ ~ ~ ~ 64 64 4294967295",
    ),
    (
        &["decode", "--db", "d", "--cap", "c", "--window", "1"],
        "decode d c ~ ~ ~ ~ 4 1 4294967295",
    ),
    (
        &["decode", "--db", "d", "--cap", "c", "--window", "256"],
        "decode d c ~ ~ ~ ~ 4 256 4294967295",
    ),
    (
        &["decode", "--db", "d", "--cap", "c", "--max-packets", "1"],
        "decode d c ~ ~ ~ ~ 4 64 1",
    ),
    (
        &[
            "decode",
            "--db",
            "d",
            "--cap",
            "c",
            "--max-packets",
            "4294967295",
        ],
        "decode d c ~ ~ ~ ~ 4 64 4294967295",
    ),
    (
        &["gen", "--seed", "4294967295", "--packets", "100000"],
        "gen 4294967295 100000 0 64",
    ),
    (
        &["gen", "--seed", "1", "--packets", "1", "--workers", "64"],
        "gen 1 1 64 64",
    ),
    (
        &[
            "gen",
            "--seed",
            "1",
            "--packets",
            "1",
            "--workers=0",
            "--window",
            "1",
        ],
        "gen 1 1 0 1",
    ),
    // up to ten digits
    (
        &["gen", "--seed", "0000000007", "--packets", "01"],
        "gen 7 1 0 64",
    ),
    (&["gen", "--packets=3", "--seed=00"], "gen 0 3 0 64"),
    // names are compared whole
    (
        &[
            "decode", "--db", "d", "--cap", "D", "--pdml", "dd", "--psml", "./d",
        ],
        "decode d D dd ./d ~ ~ 4 64 4294967295",
    ),
];

/// Words that have a fault.
const FAULTS: [Case; 83] = [
    // 1: no word
    (&[], "fault 0 1"),
    // 2: an unknown command
    (&["show"], "fault 0 2"),
    (&[""], "fault 0 2"),
    (&["Decode"], "fault 0 2"),
    (&["decodes"], "fault 0 2"),
    (&["--help"], "fault 0 2"),
    (&["--db", "d", "check"], "fault 0 2"),
    // 3: no option of the command
    (&["check", "x"], "fault 1 3"),
    (&["check", ""], "fault 1 3"),
    (&["check", "-"], "fault 1 3"),
    (&["check", "--"], "fault 1 3"),
    (&["check", "="], "fault 1 3"),
    (&["check", "--help"], "fault 1 3"),
    (&["check", "--d", "d"], "fault 1 3"),
    (&["check", "--dbx=d"], "fault 1 3"),
    (&["check", "-db", "d"], "fault 1 3"),
    (&["check", "db", "d"], "fault 1 3"),
    (&["check", "db=d"], "fault 1 3"),
    (&["check", "--DB", "d"], "fault 1 3"),
    (&["check", "--cap", "c"], "fault 1 3"),
    (&["check", "--workers", "1"], "fault 1 3"),
    (&["decode", "--seed", "1"], "fault 1 3"),
    (&["gen", "--db", "d"], "fault 1 3"),
    (&["gen", "--max-packets", "1"], "fault 1 3"),
    (&["check", "--db", "d", "x"], "fault 3 3"),
    (&["check", "--db", "d", "-"], "fault 3 3"),
    (&["check", "--db=d", "d"], "fault 2 3"),
    // 4: for the second time
    (&["decode", "--db", "a", "--db", "b"], "fault 3 4"),
    (&["decode", "--db", "a", "--db"], "fault 3 4"),
    (&["decode", "--db", "a", "--db="], "fault 3 4"),
    (&["decode", "--db", "a", "--db", "-x"], "fault 3 4"),
    (&["decode", "--db=a", "--db=a"], "fault 2 4"),
    (
        &["decode", "--workers", "1", "--workers", "99"],
        "fault 3 4",
    ),
    (&["gen", "--seed=1", "--packets=1", "--seed=1"], "fault 3 4"),
    // 5: no value follows
    (&["check", "--db"], "fault 1 5"),
    (&["check", "--db", "--db=d"], "fault 1 5"),
    (&["check", "--db", "-x"], "fault 1 5"),
    (&["check", "--db", "--"], "fault 1 5"),
    (&["check", "--db", "--help"], "fault 1 5"),
    (&["gen", "--seed", "--packets", "1"], "fault 1 5"),
    (&["gen", "--seed", "-1"], "fault 1 5"),
    (&["decode", "--db", "d", "--cap"], "fault 3 5"),
    // 6: an empty value
    (&["check", "--db="], "fault 1 6"),
    (&["check", "--db", ""], "fault 1 6"),
    (&["check", "--db=", "d"], "fault 1 6"),
    (&["decode", "--window="], "fault 1 6"),
    (&["decode", "--window", ""], "fault 1 6"),
    // 7: no number in range
    (
        &["decode", "--db", "d", "--cap", "c", "--workers", "65"],
        "fault 5 7",
    ),
    (&["decode", "--window", "0"], "fault 1 7"),
    (&["decode", "--window=257"], "fault 1 7"),
    (&["decode", "--max-packets", "0"], "fault 1 7"),
    (&["decode", "--max-packets", "4294967296"], "fault 1 7"),
    (&["decode", "--max-packets", "9999999999"], "fault 1 7"),
    (&["decode", "--window", "00000000001"], "fault 1 7"),
    (&["decode", "--window", "-"], "fault 1 7"),
    (&["decode", "--window=-1"], "fault 1 7"),
    (&["decode", "--window", "+1"], "fault 1 7"),
    (&["decode", "--window", "0x1"], "fault 1 7"),
    (&["decode", "--window", " 1"], "fault 1 7"),
    (&["decode", "--window", "1."], "fault 1 7"),
    (&["decode", "--window", "x"], "fault 1 7"),
    (&["gen", "--seed", "4294967296"], "fault 1 7"),
    (&["gen", "--packets", "0"], "fault 1 7"),
    (&["gen", "--packets", "100001"], "fault 1 7"),
    (&["gen", "--workers", "65"], "fault 1 7"),
    (&["gen", "--window", "0"], "fault 1 7"),
    (&["gen", "--window", "257"], "fault 1 7"),
    // 8: a required option is missing
    (&["decode"], "fault 1 8"),
    (&["check"], "fault 1 8"),
    (&["decode", "--db", "d"], "fault 3 8"),
    (&["decode", "--cap=c"], "fault 2 8"),
    (&["gen", "--seed", "1"], "fault 3 8"),
    (&["gen", "--packets=1"], "fault 2 8"),
    (&["decode", "--db", "d", "--pdml", "d"], "fault 5 8"),
    // and not before a later word is read
    (&["decode", "--db", "d", "x"], "fault 3 3"),
    // 9: two files with one name
    (&["decode", "--db", "a", "--cap", "a"], "fault 3 9"),
    (&["decode", "--db", "-", "--cap", "-"], "fault 3 9"),
    (&["decode", "--db=d", "--cap=c", "--pdml=d"], "fault 3 9"),
    (
        &["decode", "--pdml", "d", "--cap", "c", "--db", "d"],
        "fault 5 9",
    ),
    (
        &[
            "decode", "--db", "d", "--cap", "c", "--pdml", "-", "--psml", "-",
        ],
        "fault 7 9",
    ),
    (
        &["decode", "--db=d", "--cap=c", "--trace", "t", "--report=t"],
        "fault 5 9",
    ),
    (
        &[
            "decode", "--db", "d", "--cap", "c", "--psml", "c", "--pdml", "d",
        ],
        "fault 5 9",
    ),
    (
        &["decode", "--pdml", "-", "--db", "-", "--cap", "-"],
        "fault 5 9",
    ),
];

/// The name of a file, or `~` where none is named.
fn name(file: &Option<Word>) -> &str {
    match file {
        Some(file) => file.as_str(),
        None => "~",
    }
}

fn described(alloc: Global, plan: &Plan) -> Result<String, NoMemory> {
    let text = match plan {
        Plan::Decode {
            db,
            cap,
            pdml,
            psml,
            trace,
            report,
            workers,
            window,
            max,
        } => {
            let inputs = format!(in alloc; "{} {}", db.as_str(), cap.as_str())?;
            let texts = format!(in alloc; "{} {}", name(pdml), name(psml))?;
            let notes = format!(in alloc; "{} {}", name(trace), name(report))?;
            format!(in alloc; "decode {inputs} {texts} {notes} {workers} {window} {max}")?
        }
        Plan::Check { db } => format!(in alloc; "check {}", db.as_str())?,
        Plan::Gen {
            seed,
            packets,
            workers,
            window,
        } => format!(in alloc; "gen {seed} {packets} {workers} {window}")?,
    };
    Ok(text)
}

/// The plan of words, of which there are few; no plan where there are many.
pub fn plan_of(alloc: Global, texts: &[&str]) -> Result<Plan, WordsFail> {
    let mut words = Vec::new(alloc);
    for text in texts {
        words.push(String::from_str(alloc, text)?)?;
    }
    if words.len() > 100 {
        return Err(WordsFail::Fault { index: 0, code: 0 });
    }
    read_words(alloc, words.as_slice())
}

fn come_to(alloc: Global, texts: &[&str]) -> Result<String, NoMemory> {
    match plan_of(alloc, texts) {
        Ok(plan) => described(alloc, &plan),
        Err(WordsFail::Fault { index, code }) => {
            let text = format!(in alloc; "fault {index} {code}")?;
            Ok(text)
        }
        Err(WordsFail::NoMemory) => Err(NoMemory),
    }
}

#[test]
fn words_have_their_plans(rt: HostRuntime) -> Result<(), Fail> {
    for (texts, wanted) in &PLANS {
        let found = come_to(rt.alloc(), texts)?;
        assert!(rt; found.as_str() == *wanted);
    }
    Ok(())
}

#[test]
fn words_have_their_faults(rt: HostRuntime) -> Result<(), Fail> {
    for (texts, wanted) in &FAULTS {
        let found = come_to(rt.alloc(), texts)?;
        assert!(rt; found.as_str() == *wanted);
    }
    Ok(())
}
