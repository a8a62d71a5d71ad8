//! Tests of `bgp_judge`: refused memory, and what a reader tells of a capture that was judged. And
//! of `bgp_compact`: refused memory, and what is held; what is asked of each tracker is asked of
//! the plain one of `bgp_judge` there, too. (`real_captures` judges sessions and captures with both
//! trackers.)
//!
//! They stand in a crate of their own, since a crate with tests is proved twice.
#![tactic(auto)]

#[cfg(test)]
mod compact;
#[cfg(test)]
mod judge;
