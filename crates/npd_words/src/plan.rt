ghost use Rattle.std.specs.Prelude.{◌≡◌, IfOk};
ghost use Rattle.npd_words.specs.Options;
ghost use Rattle.npd_words.specs.Plans;
ghost use Rattle.npd_words.specs.declared.command.Command.TheVariants as command;

use crate::given::{Given, value_of};
use crate::number::number_of;
use crate::{Command, Need, OptionName, OptionRow, rows};
use db_model::{NoMemory, Word};
use std::alloc::Global;

/// What the words ask for. Each name is the text of its word; a number that isn't given is the option's default.
#[derive(Drop)]
pub enum Plan {
    /// Decode a capture by a database, and write the outputs that are named.
    Decode {
        db: Word,
        cap: Word,
        pdml: Option<Word>,
        psml: Option<Word>,
        trace: Option<Word>,
        report: Option<Word>,
        /// 0 to 64.
        workers: u32,
        /// 1 to 256 packets.
        window: u32,
        /// 1 packet or more.
        max: u32,
    },
    /// Check a database.
    Check {
        db: Word,
    },
    /// Make a capture and decode it.
    Gen {
        seed: u32,
        /// 1 to 100,000.
        packets: u32,
        /// 0 to 64.
        workers: u32,
        /// 1 to 256 packets.
        window: u32,
    },
}

/// The name of a file that has to be given.
fn file(alloc: Global, given: &[Given], option: OptionName) -> Result<Word, NoMemory>
    ensures { IfOk result (λ w. w ≡ Plans.file given.now option) }
{
    match value_of(given, option) {
        Some(name) => Word::copy_of(alloc, name),
        None => Word::copy_of(alloc, ""),
    }
}

/// The name of a file, where it is given.
fn optional_file(
    alloc: Global,
    given: &[Given],
    option: OptionName,
) -> Result<Option<Word>, NoMemory>
    ensures { IfOk result (λ w. w ≡ Options.value_of given.now option) }
{
    match value_of(given, option) {
        Some(name) => Ok(Some(Word::copy_of(alloc, name)?)),
        None => Ok(None),
    }
}

fn default_in(need: Need) -> u32
    ensures { result ≡ Plans.default_in need }
{
    match need {
        Need::Default(n) => n,
        Need::Required | Need::Optional => 0,
    }
}

/// The number that an option is where it isn't given.
fn default_of(rows: &[OptionRow], option: OptionName) -> u32
    ensures { result ≡ Plans.default_of rows.now option }
{
    for row in rows {
        if option.spelled() == row.option.spelled() {
            return default_in(row.need);
        }
    }
    0
}

fn number(rows: &[OptionRow], given: &[Given], option: OptionName) -> u32
    ensures { result ≡ Plans.number rows.now given.now option }
{
    match value_of(given, option) {
        Some(text) => number_of(text).unwrap_or(0),
        None => default_of(rows, option),
    }
}

fn decode_plan(alloc: Global, given: &[Given]) -> Result<Plan, NoMemory>
    ensures { IfOk result (λ p. p ≡ Plans.plan_of command.Decode given.now) }
{
    let rows = rows(Command::Decode);
    Ok(Plan::Decode {
        db: file(alloc, given, OptionName::Db)?,
        cap: file(alloc, given, OptionName::Cap)?,
        pdml: optional_file(alloc, given, OptionName::Pdml)?,
        psml: optional_file(alloc, given, OptionName::Psml)?,
        trace: optional_file(alloc, given, OptionName::Trace)?,
        report: optional_file(alloc, given, OptionName::Report)?,
        workers: number(rows, given, OptionName::Workers),
        window: number(rows, given, OptionName::Window),
        max: number(rows, given, OptionName::MaxPackets),
    })
}

fn check_plan(alloc: Global, given: &[Given]) -> Result<Plan, NoMemory>
    ensures { IfOk result (λ p. p ≡ Plans.plan_of command.Check given.now) }
{
    Ok(Plan::Check {
        db: file(alloc, given, OptionName::Db)?,
    })
}

fn gen_plan(given: &[Given]) -> Plan
    ensures { result ≡ Plans.plan_of command.Gen given.now }
{
    let rows = rows(Command::Gen);
    Plan::Gen {
        seed: number(rows, given, OptionName::Seed),
        packets: number(rows, given, OptionName::Packets),
        workers: number(rows, given, OptionName::Workers),
        window: number(rows, given, OptionName::Window),
    }
}

/// The plan that a command and its options are.
pub fn plan_of(alloc: Global, command: Command, given: &[Given]) -> Result<Plan, NoMemory>
    ensures { IfOk result (λ p. p ≡ Plans.plan_of command given.now) }
{
    match command {
        Command::Decode => decode_plan(alloc, given),
        Command::Check => check_plan(alloc, given),
        Command::Gen => Ok(gen_plan(given)),
    }
}
