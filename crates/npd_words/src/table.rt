//! The options of each command.

ghost use Rattle.std.specs.Prelude.{◌≡◌};
ghost use Rattle.npd_words.specs.Rows;

use crate::{Command, Form, Need, OptionName, OptionRow};

macro_rules! row {
    ($option:ident, $form:expr, $need:expr) => {
        OptionRow {
            option: OptionName::$option,
            form: $form,
            need: $need,
        }
    };
    ($option:ident, $least:literal to $most:literal, $need:expr) => {
        OptionRow {
            option: OptionName::$option,
            form: Form::Number {
                least: $least,
                most: $most,
            },
            need: $need,
        }
    };
}

const DECODE: [OptionRow; 9] = [
    row!(Db, Form::Input, Need::Required),
    row!(Cap, Form::Input, Need::Required),
    row!(Pdml, Form::Output, Need::Optional),
    row!(Psml, Form::Output, Need::Optional),
    row!(Trace, Form::Output, Need::Optional),
    row!(Report, Form::Output, Need::Optional),
    row!(Workers, 0 to 64, Need::Default(4)),
    row!(Window, 1 to 256, Need::Default(64)),
    row!(MaxPackets, 1 to 4_294_967_295, Need::Default(4_294_967_295)),
];

const CHECK: [OptionRow; 1] = [row!(Db, Form::Input, Need::Required)];

const GEN: [OptionRow; 4] = [
    row!(Seed, 0 to 4_294_967_295, Need::Required),
    row!(Packets, 1 to 100_000, Need::Required),
    row!(Workers, 0 to 64, Need::Default(0)),
    row!(Window, 1 to 256, Need::Default(64)),
];

/// The options that a command has.
#[tactic(auto, unfolding(crate::specs::Rows::rows))]
pub fn rows(command: Command) -> &'static [OptionRow]
    ensures { result.now ≡ Rows.rows command }
{
    match command {
        Command::Decode => &DECODE,
        Command::Check => &CHECK,
        Command::Gen => &GEN,
    }
}
