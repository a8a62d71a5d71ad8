//! The objects of what `bgp check` says, in JSON: the verdict on each end, its possible ends and
//! their routes, what is said beside a verdict, and what is said of the whole file.
//!
//! [`CheckTeller`] puts them one after another, and counts the verdicts: an object that belongs to
//! one has its number (`specs/Objects.antt`). The object of a connection, of a session or of what
//! is refused is the one that `bgp list --json` has, and that of a line of a reason the one of
//! `bgp judge --json`. Each object is made in memory before it is put. If memory is refused for one,
//! nothing of it is put, nor of what follows it:
//!
//! ```text
//! let mut teller = CheckTeller::new();
//! teller.put_listed(&mut lines, alloc, &listed);
//! teller.put_verdict(&mut lines, alloc, &CheckVerdict::No(place, end, deed));
//! teller.put_detail(&mut lines, alloc, &CheckDetail::OneOrder(delayed));
//! teller.put_total(&mut lines, alloc, &CheckTotal::Summary(summary));
//! let status = teller.status(status);
//! ```
#![tactic(auto)]

mod member;
mod objects;
mod putting;
mod teller;

pub use bgp_json_verdicts::At;
pub use bgp_list::{
    Line, fault_status, first_second, put_connection, put_fault, put_refused, put_refused_between,
    put_refused_connection, put_session,
};
pub use member::JudgedEnd;
pub use objects::{CheckDetail, CheckTotal, CheckVerdict, Summary};
pub use teller::CheckTeller;
