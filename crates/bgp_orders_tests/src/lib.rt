//! Tests of `bgp_orders`: how much of small exchanges some way explains, worked out by hand.
//!
//! They stand in a crate of their own, since a crate with tests is proved twice.
#![tactic(auto)]

#[cfg(test)]
mod all_ways;
#[cfg(test)]
mod by_chance;
#[cfg(test)]
mod connections;
#[cfg(test)]
mod exchanges;
#[cfg(test)]
mod explained;
#[cfg(test)]
mod few_orders;
#[cfg(test)]
mod instead;
