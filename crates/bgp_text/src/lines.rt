//! Text on its way to a sink, piece by piece, through a room of fixed size: it takes no memory.

ghost use Rattle.std.specs.Prelude.{◌≡◌, ◌<◌, ◌≤◌, ◌+◌, ◌++◌, [], length, OnOk, OnErr, IsFalse};
ghost use Rattle.std.specs.Prelude.{IsTrue};

use crate::outlet::Outlet;
use crate::room::Room;
use itoa::{Buffer, Integer};
use mrt::{Failed, Sink};

/// How many octets are made hexadecimal at once.
const AT_ONCE: usize = 256;

/// A text that is written to a sink. Pieces are held until the room is full, or until they are
/// handed over.
///
/// Once the sink has failed it is given nothing more: what is put then is lost, and each
/// [`hand_over`](Lines::hand_over) tells of the failure.
#[derive(Drop)]
pub struct Lines<'a, W: Sink> {
    outlet: Outlet<'a, W>,
    held: Room,
}

impl<'a, W: Sink> Lines<'a, W> {
    ghost use Rattle.bgp_text.specs.Lines.{Writes};

    /// A text of which nothing is written yet.
    pub fn new(sink: &'a mut W) -> Lines<'a, W>
        requires { W.failures sink.old < u64.MAX }
        ensures same { result.outlet.sink.ghost_name ≡ sink.entry.ghost_name }
        ensures now { result.outlet.sink.now ≡ sink.old }
        ensures fresh { IsFalse result.outlet.has_failed }
        ensures empty { result.held.items ≡ [] }
    {
        Lines {
            outlet: Outlet::new(sink),
            held: Room::new(),
        }
    }

    /// The sink, as the last call left it: what is still held is lost.
    pub fn into_sink(self) -> &'a mut W
        ensures { result ≡ self.entry.outlet.sink }
    {
        self.outlet.into_sink()
    }

    /// Whether the sink has failed, so that all that is put is lost.
    pub fn has_failed(&self) -> bool
        ensures { result ≡ self.now.outlet.has_failed }
    {
        self.outlet.has_failed()
    }

    /// Appends a piece to the text.
    #[inline(always)]
    pub fn put(&mut self, piece: &[u8])
        ensures { Writes self.old self.new piece.now }
    {
        if piece.len() <= self.held.left() {
            self.held.push(piece);
        } else {
            self.spill(piece);
        }
    }

    // Hands over what is held, and then a piece for which there was no room.
    #[cold]
    #[inline(never)]
    fn spill(&mut self, piece: &[u8])
        ensures { Writes self.old self.new piece.now }
    {
        self.pass_on();
        self.outlet.give(piece);
    }

    // Hands over what is held.
    #[cold]
    #[inline(never)]
    fn pass_on(&mut self)
        ensures writes { Writes self.old self.new [] }
        ensures none { self.new.held.items ≡ [] }
    {
        self.outlet.give(self.held.as_slice());
        self.held.clear();
    }

    // Hands over what is held if there isn't room for so many octets more.
    #[inline(always)]
    fn make_room(&mut self, count: usize)
        requires { count ≤ 65536 }
        ensures writes { Writes self.old self.new [] }
        ensures room { length self.new.held.items + count ≤ 65536 }
    {
        if self.held.left() < count {
            self.pass_on();
        }
    }

    /// Hands over to the sink what is held, and tells whether it has taken all of the text.
    pub fn hand_over(&mut self) -> Result<(), Failed>
        ensures writes { Writes self.old self.new [] }
        ensures none { self.new.held.items ≡ [] }
        ensures ok { OnOk result (IsFalse self.new.outlet.has_failed) }
        ensures err { OnErr result (IsTrue self.new.outlet.has_failed) }
    {
        self.pass_on();
        if self.outlet.has_failed() {
            Err(Failed)
        } else {
            Ok(())
        }
    }
}

impl<W: Sink> Lines<'_, W> {
    ghost use Rattle.std.specs.Prelude.{codes};
    ghost use Rattle.std.specs.Fmt.{decimal};
    ghost use Rattle.bgp_text.specs.Lines.{Writes};
    ghost use Rattle.hex.specs.Hex.{encode_lower};
    ghost use Rattle.bgp_prefix.specs.Text.{address_text};
    ghost use Rattle.bgp_prefix.specs.declared.address.Address.TheVariants.{V4};
    ghost use Rattle.bgp_text.specs.Text.{hex_text};

    /// Appends a number in decimal.
    pub fn put_decimal<I: Integer>(&mut self, number: I)
        ensures { Writes self.old self.new (I.text number) }
    {
        let mut digits = Buffer::new();
        self.put(digits.format(number).as_bytes());
    }

    /// Appends an IPv4 address in dotted decimal.
    pub fn put_ipv4(&mut self, address: u32)
        ensures { Writes self.old self.new (address_text (V4 address)) }
    {
        self.make_room(16);
        self.held.push_ipv4(address);
    }

    /// Appends an IPv4 address in dotted decimal, `/` and a count of bits.
    pub(crate) fn put_ipv4_prefix(&mut self, address: u32, bits: u8)
        ensures { Writes self.old self.new
            (address_text (V4 address) ++ (codes "/" ++ decimal bits)) }
    {
        self.make_room(20);
        self.held.push_ipv4_prefix(address, bits);
    }

    /// Appends two octets in decimal, with a dot between them and a colon behind them.
    pub(crate) fn put_head(&mut self, first: u8, second: u8)
        ensures { Writes self.old self.new
            (decimal first ++ (codes "." ++ (decimal second ++ codes ":"))) }
    {
        self.make_room(8);
        self.held.push_head(first, second);
    }

    /// Appends octets in hexadecimal, or a dash for none.
    #[tactic(auto, unfolding(crate::specs::Text::hex_text))]
    pub fn put_hex(&mut self, octets: &[u8])
        ensures { Writes self.old self.new (hex_text octets.now) }
    {
        match octets {
            [] => self.put(b"-"),
            _ => self.put_digits(octets),
        }
    }

    /// Appends octets in hexadecimal, so many at a time.
    pub fn put_digits(&mut self, octets: &[u8])
        ensures { Writes self.old self.new (encode_lower octets.now) }
    {
        let mut rest = octets;
        while !rest.is_empty() {
            let (piece, behind) = rest.split_at(rest.len().min(AT_ONCE));
            self.make_room(2 * AT_ONCE);
            self.held.push_hex(piece);
            rest = behind;
        }
    }
}
