//! What there is to say of the prefix that a speaker is to announce.

ghost use Rattle.std.specs.Prelude.{◌≡◌};
ghost use Rattle.bgp_speak_tool.specs.Speaking.{announce_note, note_of_prefix};

use bgp_open::Families;
use bgp_prefix::Prefix;
use bgp_talk::Speaking;
use std::fmt;

/// What there is to say of the prefix that `bgp speak` is to announce, before it speaks.
#[derive(Clone, Copy, Debug, PartialEq, Eq)]
pub enum AnnounceNote {
    /// It isn't announced: its family isn't configured.
    NotConfigured(Prefix),
    /// It was given with bits after its length, which are cleared.
    Cleared(Prefix),
}

impl fmt::Display for AnnounceNote {
    fn fmt<W: fmt::Write>(&self, f: &mut fmt::Formatter<W>) -> fmt::Result {
        match *self {
            AnnounceNote::NotConfigured(prefix) => {
                write!(
                    f,
                    "{prefix} isn't announced: --families leaves its family out"
                )
            }
            AnnounceNote::Cleared(prefix) => {
                write!(
                    f,
                    "{prefix} is announced: --announce has bits after its length"
                )
            }
        }
    }
}

/// What there is to say of a prefix.
fn note_of_prefix(families: Families, cleared: bool, prefix: Prefix) -> Option<AnnounceNote>
    ensures { result ≡ note_of_prefix families cleared prefix }
{
    if !families.contains(prefix.family()) {
        return Some(AnnounceNote::NotConfigured(prefix));
    }
    if cleared {
        return Some(AnnounceNote::Cleared(prefix));
    }
    None
}

/// What there is to say of the prefix that the words of `bgp speak` name, where these families are
/// configured: that it isn't announced, or that bits after its length were cleared. `None` where
/// it is announced as it was given, or none is named.
pub fn announce_note(families: Families, speaking: &Speaking) -> Option<AnnounceNote>
    ensures { result ≡ announce_note families speaking.now }
{
    let prefix = speaking.announce?;
    note_of_prefix(families, speaking.cleared, prefix)
}
