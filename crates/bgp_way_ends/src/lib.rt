//! Laws of the ends of a session over all orders that the packets allow. All whole ways
//! ([`bgp_orders`]) of a connection end in one state, with the same ends: the same sets of disabled
//! families, each with the same routes. So what the records of one of them say holds for all. Two
//! starts of a session are enough for them, of the four that the standard has.
//!
//! ```text
//! a_yes_lists_all_ends();
//! // The ends of the records that `record_whole_way` returns are all that whole ways have.
//! ```
#![tactic(auto)]

mod laws;

pub use laws::{
    a_made_unfinished_is_no_no, a_yes_lists_all_ends, a_yes_lists_all_ends_in_its_states,
    more_patience_reaches_no_fewer_nodes, one_way_for_each_state_is_enough, two_starts_are_enough,
    whole_ways_end_alike, whole_ways_end_in_one_state,
};
