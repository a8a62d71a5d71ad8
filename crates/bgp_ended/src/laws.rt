//! Laws of what is known of a connection, each on a function that does nothing.

ghost use Rattle.bgp_ended.specs.Once.{EachConnectionHasOneOutline};

/// What is known of a connection is one thing: whoever asks for it by the same packets is told the
/// same AS numbers and the same end.
pub fn each_connection_has_one_outline()
    ensures { EachConnectionHasOneOutline }
{}
