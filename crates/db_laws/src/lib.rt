//! The theorems about the definitions of `db_model`, each the contract of a function that does nothing: what layers
//! above may use of tables, questions, decodings and included blocks.
#![tactic(auto)]

ghost use Rattle.db_laws.specs.Laws.{UnchangedDecoding, UnchangedComputation, DiffersNowhere, AgreesInParts, SessionOfDecoding, SerialFrom, SerialFront, IncludesEnd, CyclesFound, PutKeeps, TableKeeps, TableFits, TableOfQuestion, FitsStay, DeclaredFits, AsksProperly, ProperComputations, AfterFits, DecodingFits, SerialFits, TypedValues, StartFits, TakenAsItself, CarriesState, UpdatesUnchanged, FewProtocols};

/// Where the log of a decoding agrees with another session, decoding from there gives the same tree and log.
pub fn unchanged_decoding()
    ensures { UnchangedDecoding }
{}

/// The same for any computation, at two states that differ in their session alone.
pub fn unchanged_computation<S, A>()
    ensures { UnchangedComputation S A }
{}

/// `differs` is none exactly where a log agrees.
pub fn differs_nowhere()
    ensures { DiffersNowhere }
{}

/// A log in two parts agrees exactly where each does in its place.
pub fn agrees_in_parts()
    ensures { AgreesInParts }
{}

/// The session of a decoding is the one that its log leaves.
pub fn session_of_decoding()
    ensures { SessionOfDecoding }
{}

/// The states from a later one on are those that start with it.
pub fn serial_from()
    ensures { SerialFrom }
{}

/// More packets behind the first ones don't change the states of these.
pub fn serial_front()
    ensures { SerialFront }
{}

/// In a checked database a name means the block of that name, at whatever depth it is included: the levels that
/// there are never end, and more of them change nothing.
pub fn includes_end()
    ensures { IncludesEnd }
{}

/// Fault 45 stands exactly where a named block leads back to itself, through however many others.
pub fn cycles_found()
    ensures { CyclesFound }
{}

/// Putting entries keeps their keys and masks apart, and the declared lengths.
pub fn put_keeps()
    ensures { PutKeeps }
{}

/// An addition and a look-up keep that.
pub fn table_keeps()
    ensures { TableKeeps }
{}

/// What a table holds goes on to fit its declaration, and so does the row of a hit.
pub fn table_fits()
    ensures { TableFits }
{}

/// What fits a database fits the table that is asked.
pub fn table_of_question()
    ensures { TableOfQuestion }
{}

/// A question that fits leaves a session that fits, and the row of its hit fits.
pub fn fits_stay()
    ensures { FitsStay }
{}

/// The session of a database to which nothing was added fits.
pub fn declared_fits()
    ensures { DeclaredFits }
{}

/// In a checked database each question that a decoding asks fits, and there are at most as many as a packet may ask.
pub fn asks_properly()
    ensures { AsksProperly }
{}

/// How computations that ask properly are put together, and what they give over a session.
pub fn proper_computations<S, A, B>()
    ensures { ProperComputations S A B }
{}

/// A log of questions that fit leaves a session that fits.
pub fn after_fits()
    ensures { AfterFits }
{}

/// A decoding asks questions that fit, and at most as many as it may, and leaves a session that fits.
pub fn decoding_fits()
    ensures { DecodingFits }
{}

/// The same of packets decoded one by one.
pub fn serial_fits()
    ensures { SerialFits }
{}

/// The value of a typed expression has its type.
pub fn typed_values()
    ensures { TypedValues }
{}

/// The state with which a decoding begins fits a checked database.
pub fn start_fits()
    ensures { StartFits }
{}

/// A value that has a type is itself where it is taken as one of that type.
pub fn taken_as_itself()
    ensures { TakenAsItself }
{}

/// Leaving questions open says the same as carrying session and log through the state.
pub fn carries_state<S, A, B>()
    ensures { CarriesState S A B }
{}

/// In a checked database no decoding is changed by taking the data values of updates as their columns' types.
pub fn updates_unchanged()
    ensures { UpdatesUnchanged }
{}

/// A tree has at most 32 protocols and the payload.
pub fn few_protocols()
    ensures { FewProtocols }
{}
