ghost use Rattle.std.specs.Prelude.{◌≡◌};
ghost use Rattle.npd_words.specs.Spelled.{option_text};

/// The options of all commands.
#[derive(Clone, Copy)]
pub enum OptionName {
    /// The database.
    Db,
    /// The capture.
    Cap,
    /// The output for PDML.
    Pdml,
    /// The output for PSML.
    Psml,
    /// The output for the trace.
    Trace,
    /// The output for the reports of taps.
    Report,
    /// Threads that decode beside the calling one.
    Workers,
    /// Packets that are read before they are decoded.
    Window,
    /// Packets of the capture that are decoded.
    MaxPackets,
    /// Where the random numbers of a made capture begin.
    Seed,
    /// Packets of a made capture.
    Packets,
}

impl OptionName {
    /// The option as it is written.
    #[tactic(auto, unfolding(crate::specs::Spelled::option_text))]
    pub fn spelled(self) -> &'static str
        ensures { result.now ≡ option_text self }
    {
        match self {
            OptionName::Db => "--db",
            OptionName::Cap => "--cap",
            OptionName::Pdml => "--pdml",
            OptionName::Psml => "--psml",
            OptionName::Trace => "--trace",
            OptionName::Report => "--report",
            OptionName::Workers => "--workers",
            OptionName::Window => "--window",
            OptionName::MaxPackets => "--max-packets",
            OptionName::Seed => "--seed",
            OptionName::Packets => "--packets",
        }
    }
}
