//! Laws of what is made, each on a function that does nothing.

ghost use Rattle.bgp_recording.specs.Captured.{MadeRecordsAreRead};
ghost use Rattle.bgp_recording.specs.Joined.{MadeRecordsAreTheStreams};
ghost use Rattle.bgp_recording.specs.Once.{ConnectionsAreRecordedOnce};

/// The records that tell a connection, written one after another, are a capture that spells just
/// these records, where its messages were framed by the session's rules and both addresses of the
/// session are of one family; unless the session refuses a ROUTE-REFRESH (RFC 2918), and there is
/// one. Where such messages are passed over, no record has one that a reader would pass over.
pub fn made_records_are_read()
    ensures { MadeRecordsAreRead }
{}

/// The received messages of the records that tell a connection and as many ROUTE-REFRESHes as are
/// passed over, each where it stood, joined, and what is told to be left after them, are what the
/// peer sent; the sent ones, likewise, what the local system did.
pub fn made_records_are_the_streams()
    ensures { MadeRecordsAreTheStreams }
{}

/// What is made of a connection is one thing: two lists of records that tell connections with the
/// same streams, packets and end, framed by the same rules and within as many seconds, are the
/// same, record by record and packet by packet, and the same of the streams is in no record. So
/// whoever makes the records of a connection makes these: `specs/MadeOrder` is a function.
pub fn connections_are_recorded_once()
    ensures { ConnectionsAreRecordedOnce }
{}
