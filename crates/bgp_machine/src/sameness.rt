//! Whether two steps, or two of their parts, are one.

ghost use Rattle.std.specs.Prelude.{◌≡◌, ◌↔◌, IsTrue};

use crate::fsm::Fsm;
use crate::state::{Head, HoldTimer};
use crate::step::{Routes, Step};
use crate::want::{FaultSet, Want, Wants};
use bgp_open::{Families, Link, OpenSubcodes, RouteForm};
use bgp_rib::Subcodes;
use bgp_wire::HeaderFaults;

fn same_timer(a: HoldTimer, b: HoldTimer) -> bool
    ensures { IsTrue result ↔ (a ≡ b) }
{
    a.since == b.since && a.span == b.span
}

fn same_families(a: Families, b: Families) -> bool
    ensures { IsTrue result ↔ (a ≡ b) }
{
    a == b
}

fn same_form(a: RouteForm, b: RouteForm) -> bool
    ensures { IsTrue result ↔ (a ≡ b) }
{
    if a.ipv6_next_hops != b.ipv6_next_hops {
        return false;
    }
    same_families(a.identified, b.identified)
}

/// Checks whether both are one link.
pub fn same_link(a: Link, b: Link) -> bool
    ensures { IsTrue result ↔ (a ≡ b) }
{
    if a.hold != b.hold {
        return false;
    }
    if a.as4 != b.as4 {
        return false;
    }
    if a.internal != b.internal {
        return false;
    }
    if a.extended != b.extended {
        return false;
    }
    if !same_families(a.families, b.families) {
        return false;
    }
    if !same_form(a.received, b.received) {
        return false;
    }
    same_form(a.sent, b.sent)
}

/// Checks whether both are one head.
pub fn same_head(a: Head, b: Head) -> bool
    ensures { IsTrue result ↔ (a ≡ b) }
{
    match (a, b) {
        (Head::Idle, Head::Idle) => true,
        (Head::Connect(d), Head::Connect(e)) => d == e,
        (Head::Active(d), Head::Active(e)) => d == e,
        (Head::OpenSent(s), Head::OpenSent(t)) => same_timer(s, t),
        (Head::OpenConfirm(k, s), Head::OpenConfirm(l, t)) => {
            if !same_link(k, l) {
                return false;
            }
            same_timer(s, t)
        }
        (Head::Established(k, s), Head::Established(l, t)) => {
            if !same_link(k, l) {
                return false;
            }
            same_timer(s, t)
        }
        _ => false,
    }
}

fn same_first_of_open(a: OpenSubcodes, b: OpenSubcodes) -> bool
    ensures { IsTrue result ↔ (
        (a.unspecific ≡ b.unspecific)
        × (a.version ≡ b.version)
        × (a.peer_as ≡ b.peer_as)
        × (a.identifier ≡ b.identifier)) }
{
    if a.unspecific != b.unspecific {
        return false;
    }
    if a.version != b.version {
        return false;
    }
    if a.peer_as != b.peer_as {
        return false;
    }
    a.identifier == b.identifier
}

fn same_second_of_open(a: OpenSubcodes, b: OpenSubcodes) -> bool
    ensures { IsTrue result ↔ (
        (a.parameter ≡ b.parameter)
        × (a.hold ≡ b.hold)
        × (a.capability ≡ b.capability)
        × (a.role ≡ b.role)) }
{
    if a.parameter != b.parameter {
        return false;
    }
    if a.hold != b.hold {
        return false;
    }
    if a.capability != b.capability {
        return false;
    }
    a.role == b.role
}

fn same_open_subcodes(a: OpenSubcodes, b: OpenSubcodes) -> bool
    ensures { IsTrue result ↔ (a ≡ b) }
{
    if !same_first_of_open(a, b) {
        return false;
    }
    same_second_of_open(a, b)
}

fn same_first(a: Subcodes, b: Subcodes) -> bool
    ensures { IsTrue result ↔ (
        (a.malformed_attribute_list ≡ b.malformed_attribute_list)
        × (a.unrecognized_well_known ≡ b.unrecognized_well_known)
        × (a.missing_well_known ≡ b.missing_well_known)
        × (a.attribute_flags ≡ b.attribute_flags)
        × (a.attribute_length ≡ b.attribute_length)
        × (a.invalid_origin ≡ b.invalid_origin)) }
{
    if a.malformed_attribute_list != b.malformed_attribute_list {
        return false;
    }
    if a.unrecognized_well_known != b.unrecognized_well_known {
        return false;
    }
    if a.missing_well_known != b.missing_well_known {
        return false;
    }
    if a.attribute_flags != b.attribute_flags {
        return false;
    }
    if a.attribute_length != b.attribute_length {
        return false;
    }
    a.invalid_origin == b.invalid_origin
}

fn same_second(a: Subcodes, b: Subcodes) -> bool
    ensures { IsTrue result ↔ (
        (a.as_routing_loop ≡ b.as_routing_loop)
        × (a.invalid_next_hop ≡ b.invalid_next_hop)
        × (a.optional_attribute ≡ b.optional_attribute)
        × (a.invalid_network_field ≡ b.invalid_network_field)
        × (a.malformed_as_path ≡ b.malformed_as_path)) }
{
    if a.as_routing_loop != b.as_routing_loop {
        return false;
    }
    if a.invalid_next_hop != b.invalid_next_hop {
        return false;
    }
    if a.optional_attribute != b.optional_attribute {
        return false;
    }
    if a.invalid_network_field != b.invalid_network_field {
        return false;
    }
    a.malformed_as_path == b.malformed_as_path
}

fn same_subcodes(a: Subcodes, b: Subcodes) -> bool
    ensures { IsTrue result ↔ (a ≡ b) }
{
    if !same_first(a, b) {
        return false;
    }
    same_second(a, b)
}

fn same_header_faults(a: HeaderFaults, b: HeaderFaults) -> bool
    ensures { IsTrue result ↔ (a ≡ b) }
{
    if a.marker != b.marker {
        return false;
    }
    if a.length != b.length {
        return false;
    }
    a.kind == b.kind
}

fn same_faults(a: FaultSet, b: FaultSet) -> bool
    ensures { IsTrue result ↔ (a ≡ b) }
{
    match (a, b) {
        (FaultSet::Header(x), FaultSet::Header(y)) => same_header_faults(x, y),
        (FaultSet::Open(x), FaultSet::Open(y)) => same_open_subcodes(x, y),
        (FaultSet::Update(x), FaultSet::Update(y)) => same_subcodes(x, y),
        _ => false,
    }
}

fn same_want(a: Want, b: Want) -> bool
    ensures { IsTrue result ↔ (a ≡ b) }
{
    match (a, b) {
        (Want::OwnOpen, Want::OwnOpen) => true,
        (Want::KeepAlive, Want::KeepAlive) => true,
        (Want::CleanUpdate, Want::CleanUpdate) => true,
        (Want::Cease, Want::Cease) => true,
        (Want::HoldExpired, Want::HoldExpired) => true,
        (Want::SendHoldExpired, Want::SendHoldExpired) => true,
        (Want::MachineError(x), Want::MachineError(y)) => x == y,
        (Want::Faults(x), Want::Faults(y)) => same_faults(x, y),
        _ => false,
    }
}

/// Checks whether both are the same messages in the same order.
pub fn same_wants(a: Wants, b: Wants) -> bool
    ensures { IsTrue result ↔ (a ≡ b) }
{
    match (a, b) {
        (Wants::Nothing, Wants::Nothing) => true,
        (Wants::One(x), Wants::One(y)) => same_want(x, y),
        (Wants::Two(x, u), Wants::Two(y, v)) => {
            if !same_want(x, y) {
                return false;
            }
            same_want(u, v)
        }
        _ => false,
    }
}

fn same_fsm(a: Fsm, b: Fsm) -> bool
    ensures { IsTrue result ↔ (a ≡ b) }
{
    a == b
}

/// Checks whether both are one change of state, or none.
pub fn same_change(a: Option<(Fsm, Fsm)>, b: Option<(Fsm, Fsm)>) -> bool
    ensures { IsTrue result ↔ (a ≡ b) }
{
    match (a, b) {
        (None, None) => true,
        (Some((x, u)), Some((y, v))) => {
            if !same_fsm(x, y) {
                return false;
            }
            same_fsm(u, v)
        }
        _ => false,
    }
}

fn same_routes(a: Routes, b: Routes) -> bool
    ensures { IsTrue result ↔ (a ≡ b) }
{
    match (a, b) {
        (Routes::Kept, Routes::Kept) => true,
        (Routes::Cleared, Routes::Cleared) => true,
        (Routes::Given(x), Routes::Given(y)) => same_families(x, y),
        _ => false,
    }
}

/// Whether both are one step.
pub(crate) fn same_step(a: Step, b: Step) -> bool
    ensures { IsTrue result ↔ (a ≡ b) }
{
    if !same_wants(a.wants, b.wants) {
        return false;
    }
    if !same_change(a.change, b.change) {
        return false;
    }
    if !same_head(a.after.head, b.after.head) {
        return false;
    }
    same_routes(a.after.routes, b.after.routes)
}
