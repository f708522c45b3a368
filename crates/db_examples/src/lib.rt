//! Worked examples of decoding: databases and packets written out, and what the definitions of `db_model` make
//! of them, computed by the checker. Each is the contract of a function that does nothing, so a definition that
//! says something else is refused here.
#![tactic(auto)]

mod values;

ghost use Rattle.db_examples.specs.Examples.{SessionIsHit, EmptyPacket, ShortPacket, TurnsEnd, RightSideAlone, DeadlineIsEnd, FullTable, TimeRunsBackwards, MaskedAddsOnHit, FirstFrame, ExpressionsGive, DatabasesAreJudged, SizesAreTyped};
ghost use Rattle.db_examples.specs.RuleExamples.{RenewalKeepsPlace, LeastDeadlineGoes, RoomKeepsAll, ExactFirst, KeyBeforeQuestion, BlockBeforeBody, BreakRestoresLimit, NoteIsInnermost, EndBeforeProtocols};
ghost use Rattle.db_examples.specs.ElementExamples.{LoopsRun, ExtentsEnd, BitsAreShifted, FieldsAreNumbered, BudgetsAreSpent};
ghost use Rattle.db_examples.specs.ValueExamples.{OperatorsGive, FormsGive, SpecialsGive, NamesMean, TypesFit};
ghost use Rattle.db_examples.specs.ProtocolExamples.{ProtocolsBegin, PacketsBegin};
ghost use Rattle.db_examples.specs.TableExamples.{TablesAnswer, UpdatesAsk, OneMaskOfTwo, LogsDiffer};
ghost use Rattle.db_examples.specs.LimitExamples.{PacketLimits, FormLimits, DeclaredLimits, SizeLimits};
ghost use Rattle.db_examples.specs.FaultExamples.{BitGroups, EntriesAreBounded, TimesOfUpdates, LeastLineFirst, FaultsAreFound, CirclesAreFound, BlocksNest, ChainsOfIncludes};

pub use values::keyed_database;

/// A request adds the session by which its answer is shown as text; an answer without one shows payload.
pub fn session_is_hit()
    ensures { SessionIsHit }
{}

/// The first protocol runs also on an empty packet.
pub fn empty_packet()
    ensures { EmptyPacket }
{}

/// A field past the packet's end leaves a note, and the rest is payload.
pub fn short_packet()
    ensures { ShortPacket }
{}

/// A loop without end makes all turns that there are.
pub fn turns_end()
    ensures { TurnsEnd }
{}

/// `and` leaves its right side alone where the left decides.
pub fn right_side_alone()
    ensures { RightSideAlone }
{}

/// An entry lives up to its deadline, and not at it.
pub fn deadline_is_end()
    ensures { DeadlineIsEnd }
{}

/// What a full table drops.
pub fn full_table()
    ensures { FullTable }
{}

/// Nothing is removed because time passed.
pub fn time_runs_backwards()
    ensures { TimeRunsBackwards }
{}

/// A masked entry adds exact ones on a hit.
pub fn masked_adds_on_hit()
    ensures { MaskedAddsOnHit }
{}

/// The smallest database with a field.
pub fn first_frame()
    ensures { FirstFrame }
{}

/// Values and reasons of expressions.
pub fn expressions_give()
    ensures { ExpressionsGive }
{}

/// Which sample databases are accepted, and what is said of the others.
pub fn databases_are_judged()
    ensures { DatabasesAreJudged }
{}

/// The size that `int2buf` is given is a part of the type.
pub fn sizes_are_typed()
    ensures { SizesAreTyped }
{}

/// A renewal leaves the entry in its place.
pub fn renewal_keeps_place()
    ensures { RenewalKeepsPlace }
{}

/// A full part loses the entry with the least deadline.
pub fn least_deadline_goes()
    ensures { LeastDeadlineGoes }
{}

/// Where there is room, nothing is removed.
pub fn room_keeps_all()
    ensures { RoomKeepsAll }
{}

/// An exact entry answers before a masked one.
pub fn exact_first()
    ensures { ExactFirst }
{}

/// A key of a wrong size is found before a question is spent.
pub fn key_before_question()
    ensures { KeyBeforeQuestion }
{}

/// A block takes its node before its body runs.
pub fn block_before_body()
    ensures { BlockBeforeBody }
{}

/// A break out of a size loop sets the old limit again.
pub fn break_restores_limit()
    ensures { BreakRestoresLimit }
{}

/// A note is the last node of the innermost block.
pub fn note_is_innermost()
    ensures { NoteIsInnermost }
{}

/// The end of the packet is found before the last protocol that may be entered.
pub fn end_before_protocols()
    ensures { EndBeforeProtocols }
{}

/// Loops run to their end, and continue and break leave the innermost one.
pub fn loops_run()
    ensures { LoopsRun }
{}

/// Where fields end, at the limit and past it.
pub fn extents_end()
    ensures { ExtentsEnd }
{}

/// The values of bit fields of several bytes.
pub fn bits_are_shifted()
    ensures { BitsAreShifted }
{}

/// The numbers of fields and blocks, in branches that were not taken and in named blocks too.
pub fn fields_are_numbered()
    ensures { FieldsAreNumbered }
{}

/// In which order an element finds its reasons, and that no turn is wanted where none is made.
pub fn budgets_are_spent()
    ensures { BudgetsAreSpent }
{}

/// Each operator that evaluates both sides.
pub fn operators_give()
    ensures { OperatorsGive }
{}

/// Each other form without names.
pub fn forms_give()
    ensures { FormsGive }
{}

/// Each special variable, one of them beside a declared one of its name.
pub fn specials_give()
    ensures { SpecialsGive }
{}

/// A name means the field that was decoded last under it.
pub fn names_mean()
    ensures { NamesMean }
{}

/// Types, and which cause comes first where there is none.
pub fn types_fit()
    ensures { TypesFit }
{}

/// What a protocol leaves to the next: rows and variables, and no field.
pub fn protocols_begin()
    ensures { ProtocolsBegin }
{}

/// What a packet leaves to the next: the tables alone.
pub fn packets_begin()
    ensures { PacketsBegin }
{}

/// Which entry answers, what a renewal changes, and where an entry is put.
pub fn tables_answer()
    ensures { TablesAnswer }
{}

/// What an update asks, and when it asks nothing.
pub fn updates_ask()
    ensures { UpdatesAsk }
{}

/// Two keys of which one has a mask.
pub fn one_mask_of_two()
    ensures { OneMaskOfTwo }
{}

/// Where a log that is asked again differs first, with both answers.
pub fn logs_differ()
    ensures { LogsDiffer }
{}

/// Bit fields that are followed by their like, and those that aren't.
pub fn bit_groups()
    ensures { BitGroups }
{}

/// How many entries one table and all tables may have.
pub fn entries_are_bounded()
    ensures { EntriesAreBounded }
{}

/// The times and masks that each kind of entry wants.
pub fn times_of_updates()
    ensures { TimesOfUpdates }
{}

/// Of all faults the one with the least line, then the least code.
pub fn least_line_first()
    ensures { LeastLineFirst }
{}

/// All faults of expressions that have several.
pub fn faults_are_found()
    ensures { FaultsAreFound }
{}

/// Named blocks that include themselves.
pub fn circles_are_found()
    ensures { CirclesAreFound }
{}

/// How deep blocks, loops and included blocks may stand in one another.
pub fn blocks_nest()
    ensures { BlocksNest }
{}

/// Chains of as many blocks as may be included in one another, and of one more.
pub fn chains_of_includes()
    ensures { ChainsOfIncludes }
{}

/// Each limit, as a number.
pub fn limits()
    ensures packets { PacketLimits }
    ensures forms { FormLimits }
    ensures declared { DeclaredLimits }
    ensures sizes { SizeLimits }
{}
