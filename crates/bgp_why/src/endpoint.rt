//! An end of a connection, or of a session.

ghost use Rattle.bgp_prefix.specs.declared.address.Address.TheVariants.{V4, V6};
ghost use Rattle.bgp_text.specs.Lines.{Writes};
ghost use Rattle.bgp_why.specs.Endpoint.{endpoint_by, endpoint_text, with_port};

use bgp_prefix::Address;
use bgp_text::{Lines, put_address};
use mrt::Sink;

/// An end of a connection, with its port, or of a session of a capture.
#[derive(Clone, Copy, Debug, PartialEq, Eq)]
pub struct Endpoint {
    /// Its address.
    pub address: Address,
    /// Its TCP port, if it is known.
    pub port: Option<u16>,
}

/// An address of IPv4 with a port.
fn put_v4<W: Sink>(lines: &mut Lines<'_, W>, number: u32, port: u16)
    ensures { Writes lines.old lines.new (with_port (V4 number) port) }
{
    lines.put_ipv4(number);
    lines.put(b":");
    lines.put_decimal(port);
}

/// An address of IPv6 with a port.
fn put_v6<W: Sink>(lines: &mut Lines<'_, W>, number: u128, port: u16)
    ensures { Writes lines.old lines.new (with_port (V6 number) port) }
{
    lines.put(b"[");
    put_address(lines, Address::V6(number));
    lines.put(b"]:");
    lines.put_decimal(port);
}

/// An address with a port.
fn put_with_port<W: Sink>(lines: &mut Lines<'_, W>, address: Address, port: u16)
    ensures { Writes lines.old lines.new (with_port address port) }
{
    match address {
        Address::V4(number) => put_v4(lines, number, port),
        Address::V6(number) => put_v6(lines, number, port),
    }
}

/// An address, with its port if it is known.
fn put_by<W: Sink>(lines: &mut Lines<'_, W>, address: Address, port: Option<u16>)
    ensures { Writes lines.old lines.new (endpoint_by address port) }
{
    match port {
        None => put_address(lines, address),
        Some(port) => put_with_port(lines, address, port),
    }
}

/// Puts an end: `192.0.2.1:179`, `[2001:db8::1]:179`, or its address alone.
pub fn put_endpoint<W: Sink>(lines: &mut Lines<'_, W>, end: &Endpoint)
    ensures { Writes lines.old lines.new (endpoint_text end.now) }
{
    put_by(lines, end.address, end.port);
}
