//! The commands of the program `bgp` that speak: `speak`, one end of a session over a wire, and
//! `pair`, both ends of one, whose captures are judged; and the law that the capture of whatever
//! the speaker's core does is judged yes ([`each_drive_is_judged_yes`]).
//!
//! ```text
//! let mut capture = Watched::new(alloc, file, &config.parts.session, &errors, speaking.quiet);
//! let status = speak_as(alloc, &config, &speaking, &mut wire, &mut capture, &mut output);
//! ```
//!
//! [`Watched`] is the sink of a capture, of which it prints each record, as `decode --mrt` does,
//! when it has taken the last of its octets. So one sees a speaker work.
#![tactic(auto)]

mod announcing;
mod laws;
mod pair_end;
mod pair_judging;
mod pairing;
mod speaking;
mod watched;

pub use announcing::{AnnounceNote, announce_note};
pub use laws::each_drive_is_judged_yes;
pub use pair_judging::judge_pair;
pub use pairing::pair_session;
pub use speaking::{speak_as, speak_session};
pub use watched::Watched;
