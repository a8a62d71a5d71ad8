//! The lines of a verdict, but for its routes.

use crate::answer::Answer;
use crate::reason_line::ReasonLine;
use bgp_machine::Fsm;
use bgp_open::Families;
use bgp_prefix::Session;
use streams::Opening;

/// A line of a verdict, but for those of routes and of what is refused.
#[derive(Clone, Copy)]
pub enum VerdictLine<'a> {
    /// One of several connections of a session, which is judged then.
    Opening(Session, Opening),
    /// What the verdict answers.
    Answer(Answer),
    /// A possible end: the state, and the families that are disabled.
    End(Fsm, Families),
    /// A line of the reason.
    Reason(ReasonLine<'a>),
}
