//! Laws of UPDATE messages.

ghost use Rattle.bgp_update_writer.specs.Applied.{WritesWhatIsApplied};
ghost use Rattle.bgp_update_writer.specs.Short.{OnePrefixCanBeWritten};

/// A law, with nothing to run: what is written for an update is clean, and its one outcome, wherever
/// it is received, is that the update is applied.
pub fn written_updates_are_applied()
    ensures { WritesWhatIsApplied }
{}

/// A law, with nothing to run: an announcement of one prefix, by a path with at most one AS number,
/// no communities and no clusters, and a withdrawal of one prefix are never too large for a
/// message.
pub fn one_prefix_can_be_written()
    ensures { OnePrefixCanBeWritten }
{}
