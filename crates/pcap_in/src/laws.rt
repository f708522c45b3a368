//! What the definition of a capture comes to.
ghost use Rattle.pcap_in.specs.Laws.{RecordsAreSteps, EndsWithoutBytes, SeenIsLimited, LimitedIsRead, HeaderIsFront, RecordIsFront, RecordIsNumbered, PartHasNone};

/// The records of any bytes are what stands at their front, and then the records of the bytes behind it.
pub fn records_are_steps()
    ensures { RecordsAreSteps }
{}

/// Nothing but a whole end is seen exactly where no byte is left.
pub fn ends_without_bytes()
    ensures { EndsWithoutBytes }
{}

/// What is seen of a capture with a limit of packets is told by what is seen without one, and that by the packets that were
/// read and by what is left.
pub fn seen_is_limited()
    ensures seen { SeenIsLimited }
    ensures read { LimitedIsRead }
{}

/// What was taken of a capture tells the packets that were wholly taken: a header and a record stay what they are,
/// whatever follows them, a packet has the number of its record, and fewer bytes than a record have no packet.
pub fn fronts_tell()
    ensures header { HeaderIsFront }
    ensures one { RecordIsFront }
    ensures number { RecordIsNumbered }
    ensures part { PartHasNone }
{}
