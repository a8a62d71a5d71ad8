//! Laws of recordings, each on a function that does nothing.

ghost use Rattle.packets.specs.RecordingLaws.{SomeReading, OneReading};

/// Octets are just one list of packets and one ending: the end of the file, or a first fault after
/// them.
pub fn each_recording_has_one_reading()
    ensures some { SomeReading }
    ensures one { OneReading }
{}
