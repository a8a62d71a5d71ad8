//! Whether the `bgp judge` command is told that reproduces a verdict.

ghost use Rattle.std.specs.Prelude.{◌≡◌};
ghost use Rattle.bgp_judge.specs.Verdict.{verdict_value};
ghost use Rattle.bgp_check_text.specs.Settings.{are_told, is_no_yes, where_refused};

use bgp_judge::Verdict;
use std::alloc::Allocator;

/// Whether the `bgp judge` command is told that reproduces a verdict, if there is one.
#[derive(Clone, Copy, Debug)]
pub enum Settings {
    /// It isn't told.
    Never,
    /// It is told after each verdict.
    Always,
}

/// Whether a verdict is a no or unfinished.
pub fn is_no_yes<A: Allocator>(verdict: &Verdict<A>) -> bool
    ensures { result ≡ is_no_yes (verdict_value verdict.now) }
{
    match verdict {
        Verdict::Yes(_) => false,
        Verdict::No(_) | Verdict::Unfinished => true,
    }
}

impl Settings {
    /// Whether they are told.
    pub fn are_told(self) -> bool
        ensures { result ≡ are_told self }
    {
        match self {
            Settings::Never => false,
            Settings::Always => true,
        }
    }

    /// Returns these; or that it isn't told, for a file or a session that is refused.
    pub fn where_refused(self, is_refused: bool) -> Settings
        ensures { result ≡ where_refused is_refused self }
    {
        if is_refused { Settings::Never } else { self }
    }
}
