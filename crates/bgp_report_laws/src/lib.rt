//! Laws of reports in HTML ([`bgp_report`]): what could have come, in a ladder, are the lines of that
//! end's own reason, in their order.
#![tactic(auto)]

mod laws;

pub use laws::each_ladder_has_its_own_lines;
