//! OPEN messages as they are written (RFC 4271, 4.2), with all capabilities in one parameter
//! (RFC 5492, 4).

ghost use Rattle.std.specs.Prelude.{◌≡◌, ◌<◌, ◌≤◌, ◌+◌, ◌++◌, ◌↔◌};
ghost use Rattle.std.specs.Prelude.{IfSome, IfNone, OnOk, OnErr, Err};
ghost use Rattle.std.specs.Prelude.{length, drop, map, vec_len, vec_capacity};
ghost use Rattle.bgp_open.specs.Triplet.{triplets_octets, triplets_of};
ghost use Rattle.bgp_open.specs.Capability.{capability_of, said};
ghost use Rattle.bgp_open.specs.Open.{open_of, parameters_of};
ghost use Rattle.bgp_open.specs.OpenFault.{IsWellFormed};
ghost use Rattle.bgp_open.specs.Written.{IsTooMany, fixed_octets, open_octets, parameters_with};
ghost use Rattle.bgp_open.specs.Written.{open_write_number};

use crate::capability::{CAPABILITIES, Capability};
use crate::open::VERSION;
use bgp_wire::{MessageType, put, put_header, put_u8, put_u16, put_u32};
use std::alloc::Allocator;
use thiserror::Error;

/// The octets before the parameters.
const PARAMETERS_AT: usize = 29; // header 19, fixed fields 10

/// The most octets of capabilities in the one parameter.
const MOST_CAPABILITIES: usize = 253; // parameters 255, less type 1, length 1

/// Why an OPEN isn't written.
#[derive(Clone, Copy, Debug, PartialEq, Eq, Error)]
pub enum OpenWriteFault {
    /// The parameter with the capabilities would have more than 255 octets.
    #[error("too many capabilities for an OPEN message")]
    TooMany = 1,
    /// Memory ran out.
    #[error("out of memory")]
    Memory = 2,
}

impl OpenWriteFault {
    /// Returns the fault's number: 1 for too many capabilities, 2 for memory.
    pub fn number(self) -> u8
        ensures { result ≡ open_write_number self }
    {
        self as u8
    }
}

/// How much of `room` octets is left behind these capabilities, if they fit.
fn room_behind(capabilities: &[Capability<'_>], room: usize) -> Option<usize>
    ensures some { IfSome result (λ left.
        left + length (triplets_octets (map capability_of capabilities.now)) ≡ room) }
    ensures none { IfNone result
        (room < length (triplets_octets (map capability_of capabilities.now))) }
{
    let mut left = room;
    for capability in capabilities {
        left = left.checked_sub(2)?.checked_sub(capability.value.len())?;
    }
    Some(left)
}

/// How many octets the parameters have, if at most 255: none without capabilities, and else the
/// type and length of one and the capabilities.
fn parameters_length(capabilities: &[Capability<'_>]) -> Option<u8>
    ensures one_parameter { IfSome result (λ count.
        count ≡ length (triplets_octets (parameters_with (map capability_of capabilities.now)))) }
    ensures few { IfSome result (λ count. ¬ IsTooMany (map capability_of capabilities.now)) }
    ensures none { IfNone result (IsTooMany (map capability_of capabilities.now)) }
{
    if capabilities.is_empty() {
        return Some(0);
    }
    let left = room_behind(capabilities, MOST_CAPABILITIES)?;
    Some((MOST_CAPABILITIES - left + 2) as u8)
}

/// Appends capabilities.
fn put_capabilities<A: Allocator>(out: &mut Vec<u8, A>, capabilities: &[Capability<'_>])
    requires few { length (triplets_octets (map capability_of capabilities.now)) ≤ 253 }
    requires room { vec_len out.old + length (triplets_octets (map capability_of capabilities.now))
        ≤ vec_capacity out.old }
    ensures items { out.new.items
        ≡ out.old.items ++ triplets_octets (map capability_of capabilities.now) }
{
    for capability in capabilities {
        put_u8(out, capability.code);
        put_u8(out, capability.value.len() as u8);
        put(out, capability.value);
    }
}

/// Appends one parameter with all capabilities, or none where there are none; `count` octets.
fn put_parameters<A: Allocator>(out: &mut Vec<u8, A>, capabilities: &[Capability<'_>], count: u8)
    requires count { count
        ≡ length (triplets_octets (parameters_with (map capability_of capabilities.now))) }
    requires room { vec_len out.old + count ≤ vec_capacity out.old }
    ensures one_parameter { out.new.items
        ≡ out.old.items ++ triplets_octets (parameters_with (map capability_of capabilities.now)) }
{
    if capabilities.is_empty() {
        return;
    }
    put_u8(out, CAPABILITIES);
    put_u8(out, count - 2);
    put_capabilities(out, capabilities);
}

/// Appends the fixed fields of an OPEN.
#[tactic(auto, unfolding(crate::specs::Written::fixed_octets))]
fn put_fixed_fields<A: Allocator>(
    out: &mut Vec<u8, A>,
    my_as: u16,
    hold: u16,
    id: u32,
    parameters_length: u8,
)
    requires { vec_len out.old + 10 ≤ vec_capacity out.old }
    ensures items { out.new.items
        ≡ out.old.items ++ fixed_octets my_as hold id parameters_length }
    ensures len { vec_len out.new ≡ vec_len out.old + 10 }
    ensures capacity { vec_capacity out.old ≤ vec_capacity out.new }
{
    put_u8(out, VERSION);
    put_u16(out, my_as);
    put_u16(out, hold);
    put_u32(out, id);
    put_u8(out, parameters_length);
}

/// Appends an OPEN of version 4 with all capabilities in one parameter, or without a parameter if
/// there are no capabilities. After a fault the vector is unchanged.
pub fn write_open<A: Allocator>(
    my_as: u16,
    hold: u16,
    id: u32,
    capabilities: &[Capability<'_>],
    out: &mut Vec<u8, A>,
) -> Result<(), OpenWriteFault>
    ensures ok { OnOk result (out.new.items
        ≡ out.old.items ++ open_octets (said my_as hold id capabilities.now)) }

    // What was appended is a whole OPEN that reads as what was given.
    ensures whole { OnOk result (IsWellFormed (drop (length out.old.items) out.new.items)) }
    ensures reads_back { OnOk result (open_of (drop (length out.old.items) out.new.items)
        ≡ said my_as hold id capabilities.now) }
    ensures one_parameter { OnOk result
        (triplets_of (parameters_of (drop (length out.old.items) out.new.items))
        ≡ parameters_with (map capability_of capabilities.now)) }

    ensures err { OnErr result (out.new.items ≡ out.old.items) }
    ensures too_many { (result ≡ Err OpenWriteFault.TooMany)
        ↔ IsTooMany (map capability_of capabilities.now) }
    ensures memory { result ≡ Err OpenWriteFault.Memory → vec_capacity out.old
        < vec_len out.old + length (open_octets (said my_as hold id capabilities.now)) }
{
    let Some(count) = parameters_length(capabilities) else {
        return Err(OpenWriteFault::TooMany);
    };
    let length = PARAMETERS_AT + usize::from(count);
    if let Err(_) = out.reserve(length) {
        return Err(OpenWriteFault::Memory);
    }
    put_header(out, MessageType::Open, length as u16);
    put_fixed_fields(out, my_as, hold, id, count);
    put_parameters(out, capabilities, count);
    Ok(())
}
