//! An Interface Description (`specs/Pcapng.antt` draws it).

ghost use Rattle.std.specs.Prelude.{◌≡◌, ◌≤◌, length};
ghost use Rattle.packets.specs.Pcapng.{option_len, resolution_by, offset_by, whole_option};
ghost use Rattle.packets.specs.Pcapng.{option_by, option_at, clock_in};
ghost use Rattle.packets.specs.Pcapng.{options_in, interface_in};
ghost use Rattle.packets.specs.Values.{said_value, IsWithin};

use crate::blocks::{HEAD, Interface};
use crate::clock::Clock;
use crate::order::Order;

/// What an option says, and how many octets it takes.
#[derive(Clone, Copy)]
pub(crate) enum Said {
    /// It is the last.
    Last,
    /// It runs over what is left, or isn't of its length.
    Faulty,
    /// The clock's resolution.
    Resolution(u8, usize),
    /// The clock's offset.
    Offset(i64, usize),
    /// Something else.
    Skips(usize),
}

/// How many octets an option takes whose value has so many.
fn option_len(len: u16) -> usize
    ensures { result ≡ option_len len }
{
    4 + 4 * ((usize::from(len) + 3) / 4)
}

/// A resolution, of one octet.
fn resolution_by(len: u16, octets: &[u8]) -> Said
    requires { option_len len ≤ length octets.now }
    ensures value { said_value result ≡ resolution_by len octets.now }
    ensures within { IsWithin (said_value result) octets.now }
{
    if len == 1 {
        return Said::Resolution(octets[4], option_len(len));
    }
    Said::Faulty
}

/// An offset, of eight octets.
fn offset_by(order: Order, len: u16, octets: &[u8]) -> Said
    requires { option_len len ≤ length octets.now }
    ensures value { said_value result ≡ offset_by order len octets.now }
    ensures within { IsWithin (said_value result) octets.now }
{
    if len == 8 {
        let offset = order.read_i64(octets.split_at(4).1);
        return Said::Offset(offset, option_len(len));
    }
    Said::Faulty
}

/// An option with this code and length, which is there as a whole.
#[tactic(auto, unfolding(crate::specs::Pcapng::whole_option))]
fn whole_option(order: Order, code: u16, len: u16, octets: &[u8]) -> Said
    requires { option_len len ≤ length octets.now }
    ensures value { said_value result ≡ whole_option order code len octets.now }
    ensures within { IsWithin (said_value result) octets.now }
{
    match code {
        9 => resolution_by(len, octets),
        14 => offset_by(order, len, octets),
        _ => Said::Skips(option_len(len)),
    }
}

/// An option with this code and length.
fn option_by(order: Order, code: u16, len: u16, octets: &[u8]) -> Said
    ensures value { said_value result ≡ option_by order code len octets.now }
    ensures within { IsWithin (said_value result) octets.now }
{
    if code == 0 {
        return Said::Last;
    }
    if octets.len() < option_len(len) {
        return Said::Faulty;
    }
    whole_option(order, code, len, octets)
}

/// The option at the front of the octets.
#[tactic(auto, unfolding(crate::specs::Pcapng::option_at))]
fn option_at(order: Order, octets: &[u8]) -> Said
    ensures value { said_value result ≡ option_at order octets.now }
    ensures within { IsWithin (said_value result) octets.now }
{
    if octets.is_empty() {
        return Said::Last;
    }
    if octets.len() < 4 {
        return Said::Faulty;
    }
    option_by(
        order,
        order.read_u16(octets),
        order.read_u16(&octets[2..]),
        octets,
    )
}

/// The clock that the options tell; none, where one is faulty.
fn clock_in(order: Order, options: &[u8]) -> Option<Clock>
    ensures { result ≡ clock_in order options.now }
{
    let mut clock = Clock {
        resolution: 6,
        offset: 0,
    };
    let mut rest = options;
    'each: loop {
        match option_at(order, rest) {
            Said::Last => return Some(clock),
            Said::Faulty => return None,
            Said::Resolution(resolution, len) => {
                clock = Clock {
                    resolution,
                    ..clock
                };
                rest = rest.split_at(len).1;
            }
            Said::Offset(offset, len) => {
                clock = Clock { offset, ..clock };
                rest = rest.split_at(len).1;
            }
            Said::Skips(len) => rest = rest.split_at(len).1,
        }
    }
}

/// The options between the fixed fields and the total length at the end.
fn options_in(rest: &[u8]) -> &[u8]
    requires { 8 ≤ length rest.now }
    ensures { result.now ≡ options_in rest.now }
{
    rest[..rest.len() - 4].split_at(4).1
}

/// Reads an Interface Description, by the head and the rest of its block.
#[tactic(auto, unfolding(crate::specs::Pcapng::interface_in))]
pub(crate) fn interface_in(order: Order, head: &[u8; HEAD], rest: &[u8]) -> Option<Interface>
    requires { 8 ≤ length rest.now }
    ensures { result ≡ interface_in order head.now rest.now }
{
    let clock = clock_in(order, options_in(rest))?;
    Some(Interface {
        link_type: order.read_u16(&head[8..]),
        clock,
    })
}
