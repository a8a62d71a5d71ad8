//! What is left out where only what isn't well is told.

ghost use Rattle.std.specs.Prelude.{◌≡◌};
ghost use Rattle.bgp_check.specs.Answered.{answer_value};
ghost use Rattle.bgp_check_text.specs.Quiet.{is_left_out, is_well};

use crate::settings::is_no_yes;
use bgp_check::Answer;
use std::alloc::Allocator;

/// Which lines of `check` are printed.
#[derive(Clone, Copy, Debug, PartialEq, Eq)]
pub struct Printing {
    /// Whether the routes of each possible end are.
    pub routes: bool,
    /// Whether only what isn't well is: ends that are a no or unfinished, and refusals.
    pub quiet: bool,
}

/// Whether all is well with an end of which this is answered, as far as it is judged: it is a yes,
/// or isn't judged.
fn is_well<A: Allocator>(answer: &Answer<A>) -> bool
    ensures { result ≡ is_well (answer_value answer.now) }
{
    match answer {
        Answer::NotJudged(_) => true,
        Answer::Judged(judged) => !is_no_yes(&judged.verdict),
    }
}

/// Returns whether the lines of an end of which this is answered are left out, where those of all
/// that is well are (`quiet`), or where none is.
pub fn is_left_out<A: Allocator>(quiet: bool, answer: &Answer<A>) -> bool
    ensures { result ≡ is_left_out quiet (answer_value answer.now) }
{
    quiet && is_well(answer)
}
