//! Laws: contracts of functions that do nothing.

ghost use Rattle.streams.specs.Spelling.{SpellAtMostOne, AnsweredIsSpelled, ConflictIsFirst};
ghost use Rattle.streams.specs.Spelling.{MissingIsFirst};
ghost use Rattle.streams.specs.Wholeness.{AnsweredIsWhole};
ghost use Rattle.streams.specs.Clock.{AnsweredIsClocked};
ghost use Rattle.streams.specs.Congruence.{PlacesAreUnique};

/// Law: near the octets known just one place is congruent, modulo 2 to the 32nd, to a sequence
/// number (RFC 9293, 3.4): the one at which a segment stands.
pub fn places_are_unique()
    ensures { PlacesAreUnique }
{}

/// Law: segments spell at most one stream in each direction (`specs/Spelling`, RFC 9293, 3.4).
pub fn segments_spell_at_most_one_stream()
    ensures { SpellAtMostOne }
{}

/// Law: the segments of a connection that is answered spell both its streams.
pub fn answered_streams_are_spelled()
    ensures { AnsweredIsSpelled }
{}

/// Law: the segments of a connection that is refused by a conflict spell no stream in that
/// direction, and the place told is the first at which one of them contradicts those before it.
pub fn conflicts_are_the_first()
    ensures { ConflictIsFirst }
{}

/// Law: the segments of a connection that is refused by a missing octet spell no stream in that
/// direction, and the octet told is the first that isn't given.
pub fn missing_octets_are_the_first()
    ensures { MissingIsFirst }
{}

/// Law: the packets of a connection that is answered go by a clock that never falls, and the fraction
/// of a packet's second is one thing, where its segments were taken in the order of their packets
/// (`specs/Clock`).
pub fn answered_connections_are_clocked()
    ensures { AnsweredIsClocked }
{}

/// Law: half a connection is never answered: what a segment of one acknowledges was sent by a side
/// whose SYN is in the connection (`specs/Wholeness`).
pub fn answered_connections_are_whole()
    ensures { AnsweredIsWhole }
{}
