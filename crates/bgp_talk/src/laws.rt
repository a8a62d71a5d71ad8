//! Laws of what a speaker's core does over a connection.

ghost use Rattle.bgp_talk.specs.CoreFacts.{EachRecordIsShort, FailureBringsRest, RestGoesOn};
ghost use Rattle.bgp_talk.specs.CoreFacts.{IdleKeepsPrefix, StartIsSilent};
ghost use Rattle.bgp_talk.specs.MemWire.{TookWhatIsTold};
ghost use Rattle.bgp_talk.specs.TalkLaws.{FailureStandsNext, InputsAreHandedIn, NoStopBeforeTheEnd};
ghost use Rattle.bgp_talk.specs.TalkLaws.{ConnectIsAskedOnce, NothingFollowsTheEnd, OctetsAreTaken};
ghost use Rattle.bgp_talk.specs.TalkLaws.{OctetsAreTheCores, OctetsGoFirst, OneCallIsNext};
ghost use Rattle.bgp_talk.specs.TalkLaws.{ReadsHaveRoom, StopIsLast, TurnsAreReads};

/// Whatever a core shows on an input fits the records of a capture: a message that it received or
/// sent has at most 4096 octets (RFC 4271, 4.1), or 65535 where it offers extended messages
/// (RFC 8654, 4).
pub fn each_record_is_short()
    ensures { EachRecordIsShort }
{}

/// A core that is told of a failure comes to rest, Idle or Active, and sends nothing. There it
/// stays, and is silent, at a tick, a failure or a stop. An Idle one is silent when a prefix is
/// announced, and stays Idle; and it is when it starts.
pub fn a_core_at_rest_is_quiet()
    ensures failure { FailureBringsRest }
    ensures rest { RestGoesOn }
    ensures announce { IdleKeepsPrefix }
    ensures start { StartIsSilent }
{}

/// The inputs of a core that talks are just those that the wire's account makes, each at the second
/// that was told for it. Stop comes after the talk is over, where the core isn't Idle, and is the
/// last of them but for the failure of its own octets; right after a write that took nothing stands
/// a failure.
pub fn a_talk_hands_in_what_is_told()
    ensures inputs { InputsAreHandedIn }
    ensures before { NoStopBeforeTheEnd }
    ensures stop { StopIsLast }
    ensures failure { FailureStandsNext }
{}

/// What a core that talks sends is written before the wire is asked for anything else, each write
/// being given all that is left of it. At each moment the wire took a beginning of what was sent
/// until then, wherever a fault cuts the talk short; and at the end all, where no write failed or
/// took nothing.
pub fn a_talk_writes_what_is_sent()
    ensures first { OctetsGoFirst }
    ensures moment { OctetsAreTheCores }
    ensures taken { OctetsAreTaken }
{}

/// The turns of a talk are the reads that were told, each with room for 4096 octets; none comes
/// once the core rests, nor anything else.
pub fn a_talk_reads_in_its_turns()
    ensures turns { TurnsAreReads }
    ensures room { ReadsHaveRoom }
    ensures rest { NothingFollowsTheEnd }
{}

/// At each moment of a talk there is one thing that it may ask its wire, by what it has in hand: to
/// write all octets that are left, then for the second of the first input that is owed, then to
/// connect, then to read with room for 4096 octets, while the core doesn't rest and a turn is left.
/// By its end it was asked to connect, once.
pub fn a_talk_asks_one_thing()
    ensures next { OneCallIsNext }
    ensures connect { ConnectIsAskedOnce }
{}

/// The octets that a wire in memory took are those that it tells of its writes, in order.
pub fn a_wire_in_memory_took_what_it_tells()
    ensures { TookWhatIsTold }
{}
