//! A text in memory with places behind it that may be written at once.

ghost use Rattle.std.specs.Prelude.{◌≡◌, ◌≤◌, ◌+◌, ◌*◌, ◌++◌, ◌∷◌, [], codes, length, take, OnOk};
ghost use Rattle.std.specs.Fmt.{decimal};
ghost use Rattle.hex.specs.Hex.{encode_lower};
ghost use Rattle.bgp_prefix.specs.Text.{address_text};
ghost use Rattle.bgp_prefix.specs.declared.address.Address.TheVariants.{V4, V6};
ghost use Rattle.json_writer.specs.Places.{comma_text};
ghost use Rattle.json_writer.specs.Plain.{ArePlain};

use crate::ipv6::write_ipv6;
use crate::places::{
    write_comma, write_decimal, write_hex, write_ipv4, write_ipv4_prefix, write_octet, write_one,
    write_text,
};
use std::alloc::{AllocError, Allocator};
use std::marker::Model;

/// How many places are made at once.
const AT_ONCE: usize = 1024;

/// How many octets are put in hexadecimal at the most.
const MOST: usize = 1 << 62;

static ZEROS: [u8; AT_ONCE] = [0; AT_ONCE];

/// A text, and the places behind it. Each function that puts something puts a comma before it, if
/// one is wanted, and needs enough places that are ready.
#[derive(Drop)]
pub(crate) struct Buffer<A: Allocator> {
    places: Vec<u8, A>,
    len: usize,
}

impl<A: Allocator> Model for Buffer<A> {
    ghost use Rattle.std.specs.Prelude.{◌-◌, ◌≤◌, length, take};
    ghost use Rattle.json_writer.specs.Buffer.{Filled};

    ghost Value = { Filled };

    ghost view = { λ b. record { items = take b.len b.places.items; ready = length b.places.items - b.len } };

    ghost invariant = { λ b. b.len ≤ length b.places.items };
}

impl<A: Allocator> Buffer<A> {
    /// An empty text, without places.
    pub(crate) fn new(alloc: A) -> Buffer<A>
        ensures { result.items ≡ [] }
    {
        Buffer {
            places: Vec::new(alloc),
            len: 0,
        }
    }

    /// The text.
    pub(crate) fn into_text(self) -> Vec<u8, A>
        ensures { result.items ≡ self.items }
    {
        let Buffer { mut places, len } = self;
        places.truncate(len);
        places
    }

    /// How many octets the text has.
    pub(crate) fn len(&self) -> usize
        ensures { result ≡ length self.now.items }
    {
        self.len
    }

    /// Cuts the text, if it has more octets than so many.
    pub(crate) fn cut(&mut self, len: usize)
        ensures { self.new.items ≡ take len self.old.items }
    {
        if len < self.len {
            self.len = len;
        }
    }

    /// Makes so many places ready, or fails and leaves the text.
    #[inline(always)]
    pub(crate) fn make_room(&mut self, count: usize) -> Result<(), AllocError>
        ensures items { self.new.items ≡ self.old.items }
        ensures ready { OnOk result (count ≤ self.new.ready) }
    {
        if count <= self.places.len() - self.len {
            return Ok(());
        }
        self.grow(count)
    }

    #[cold]
    #[inline(never)]
    fn grow(&mut self, count: usize) -> Result<(), AllocError>
        ensures items { self.new.items ≡ self.old.items }
        ensures ready { OnOk result (count ≤ self.new.ready) }
    {
        while self.places.len() - self.len < count {
            self.places.extend_from_slice(&ZEROS)?;
        }
        Ok(())
    }

    /// Makes as many places ready as so many octets need in hexadecimal, or fails and leaves the
    /// text.
    #[inline(always)]
    pub(crate) fn make_hex_room(&mut self, count: usize) -> Result<(), AllocError>
        ensures items { self.new.items ≡ self.old.items }
        ensures ready { OnOk result (2 * count + 3 ≤ self.new.ready) }
    {
        if count > MOST {
            return Err(AllocError); // No memory holds a text of so many.
        }
        self.make_room(2 * count + 3)
    }

    /// Puts a text.
    #[inline(always)]
    pub(crate) fn put(&mut self, comma: bool, text: &[u8])
        requires { length text.now + 1 ≤ self.old.ready }
        ensures { self.new.items ≡ self.old.items ++ (comma_text comma ++ text.now) }
    {
        let places = self.places.as_mut_slice();
        let at = write_comma(places, self.len, comma);
        self.len = write_text(places, at, text);
    }

    /// Puts a text between quotation marks.
    #[inline(always)]
    pub(crate) fn put_quoted(&mut self, comma: bool, text: &[u8])
        requires { length text.now + 3 ≤ self.old.ready }
        ensures { self.new.items
            ≡ self.old.items ++ (comma_text comma ++ 34 ∷ (text.now ++ 34 ∷ [])) }
    {
        let places = self.places.as_mut_slice();
        let at = write_comma(places, self.len, comma);
        let at = write_one(places, at, b'"');
        let at = write_text(places, at, text);
        self.len = write_one(places, at, b'"');
    }

    /// Puts a text between quotation marks, and a colon.
    #[inline(always)]
    pub(crate) fn put_key(&mut self, comma: bool, text: &[u8])
        requires { length text.now + 4 ≤ self.old.ready }
        ensures { self.new.items
            ≡ self.old.items ++ (comma_text comma ++ 34 ∷ (text.now ++ 34 ∷ 58 ∷ [])) }
    {
        let places = self.places.as_mut_slice();
        let at = write_comma(places, self.len, comma);
        let at = write_one(places, at, b'"');
        let at = write_text(places, at, text);
        let at = write_one(places, at, b'"');
        self.len = write_one(places, at, b':');
    }

    /// Puts a number in decimal.
    #[inline(always)]
    pub(crate) fn put_decimal(&mut self, comma: bool, number: u32)
        requires { 14 ≤ self.old.ready }
        ensures { self.new.items ≡ self.old.items ++ (comma_text comma ++ decimal number) }
    {
        let places = self.places.as_mut_slice();
        let at = write_comma(places, self.len, comma);
        self.len = write_decimal(places, at, number);
    }

    /// Puts an octet in decimal.
    #[inline(always)]
    pub(crate) fn put_octet(&mut self, comma: bool, octet: u8)
        requires { 5 ≤ self.old.ready }
        ensures { self.new.items ≡ self.old.items ++ (comma_text comma ++ decimal octet) }
    {
        let places = self.places.as_mut_slice();
        let at = write_comma(places, self.len, comma);
        self.len = write_octet(places, at, octet);
    }

    /// Puts a text, and behind it an octet in decimal, a comma and another text.
    #[inline(always)]
    pub(crate) fn put_around(&mut self, comma: bool, front: &[u8], octet: u8, back: &[u8])
        requires { length front.now + length back.now + 5 ≤ self.old.ready }
        ensures { self.new.items ≡ self.old.items
            ++ (comma_text comma ++ (front.now ++ (decimal octet ++ 44 ∷ back.now))) }
    {
        let places = self.places.as_mut_slice();
        let at = write_comma(places, self.len, comma);
        let at = write_text(places, at, front);
        let at = write_octet(places, at, octet);
        let at = write_one(places, at, b',');
        self.len = write_text(places, at, back);
    }

    /// Puts two numbers in decimal with a colon between them, between quotation marks.
    #[inline(always)]
    pub(crate) fn put_pair(&mut self, comma: bool, first: u32, second: u32)
        requires { 28 ≤ self.old.ready }
        ensures { self.new.items ≡ self.old.items ++ (comma_text comma
            ++ 34 ∷ ((decimal first ++ (codes ":" ++ decimal second)) ++ 34 ∷ [])) }
    {
        let places = self.places.as_mut_slice();
        let at = write_comma(places, self.len, comma);
        let at = write_one(places, at, b'"');
        let at = write_decimal(places, at, first);
        let at = write_one(places, at, b':');
        let at = write_decimal(places, at, second);
        self.len = write_one(places, at, b'"');
    }

    /// Puts three numbers in decimal with colons between them, between quotation marks.
    #[inline(always)]
    pub(crate) fn put_triple(&mut self, comma: bool, first: u32, second: u32, third: u32)
        requires { 41 ≤ self.old.ready }
        ensures { self.new.items ≡ self.old.items ++ (comma_text comma
            ++ 34 ∷ ((decimal first ++ (codes ":" ++ (decimal second
            ++ (codes ":" ++ decimal third)))) ++ 34 ∷ [])) }
    {
        let places = self.places.as_mut_slice();
        let at = write_comma(places, self.len, comma);
        let at = write_one(places, at, b'"');
        let at = write_decimal(places, at, first);
        let at = write_one(places, at, b':');
        let at = write_decimal(places, at, second);
        let at = write_one(places, at, b':');
        let at = write_decimal(places, at, third);
        self.len = write_one(places, at, b'"');
    }

    /// Puts octets in hexadecimal, between quotation marks.
    #[inline(always)]
    pub(crate) fn put_hex(&mut self, comma: bool, octets: &[u8])
        requires { 2 * length octets.now + 3 ≤ self.old.ready }
        ensures items { self.new.items
            ≡ self.old.items ++ (comma_text comma ++ 34 ∷ (encode_lower octets.now ++ 34 ∷ [])) }
        ensures plain { ArePlain (encode_lower octets.now) }
    {
        let places = self.places.as_mut_slice();
        let at = write_comma(places, self.len, comma);
        let at = write_one(places, at, b'"');
        let at = write_hex(places, at, octets);
        self.len = write_one(places, at, b'"');
    }

    /// Puts an IPv4 address, between quotation marks.
    #[inline(always)]
    pub(crate) fn put_ipv4(&mut self, comma: bool, address: u32)
        requires { 19 ≤ self.old.ready }
        ensures { self.new.items ≡ self.old.items
            ++ (comma_text comma ++ 34 ∷ (address_text (V4 address) ++ 34 ∷ [])) }
    {
        let places = self.places.as_mut_slice();
        let at = write_comma(places, self.len, comma);
        let at = write_one(places, at, b'"');
        let at = write_ipv4(places, at, address);
        self.len = write_one(places, at, b'"');
    }

    /// Puts an IPv4 prefix, between quotation marks.
    #[inline(always)]
    pub(crate) fn put_ipv4_prefix(&mut self, comma: bool, address: u32, bits: u8)
        requires { 23 ≤ self.old.ready }
        ensures { self.new.items ≡ self.old.items ++ (comma_text comma
            ++ 34 ∷ ((address_text (V4 address) ++ (codes "/" ++ decimal bits)) ++ 34 ∷ [])) }
    {
        let places = self.places.as_mut_slice();
        let at = write_comma(places, self.len, comma);
        let at = write_one(places, at, b'"');
        let at = write_ipv4_prefix(places, at, address, bits);
        self.len = write_one(places, at, b'"');
    }

    /// Puts an IPv6 address, between quotation marks.
    pub(crate) fn put_ipv6(&mut self, comma: bool, address: u128)
        requires { 45 ≤ self.old.ready }
        ensures { self.new.items ≡ self.old.items
            ++ (comma_text comma ++ 34 ∷ (address_text (V6 address) ++ 34 ∷ [])) }
    {
        let places = self.places.as_mut_slice();
        let at = write_comma(places, self.len, comma);
        let at = write_one(places, at, b'"');
        let at = write_ipv6(places, at, address);
        self.len = write_one(places, at, b'"');
    }

    /// Puts an IPv6 prefix, between quotation marks.
    pub(crate) fn put_ipv6_prefix(&mut self, comma: bool, address: u128, bits: u8)
        requires { 50 ≤ self.old.ready }
        ensures { self.new.items ≡ self.old.items ++ (comma_text comma
            ++ 34 ∷ ((address_text (V6 address) ++ (codes "/" ++ decimal bits)) ++ 34 ∷ [])) }
    {
        let places = self.places.as_mut_slice();
        let at = write_comma(places, self.len, comma);
        let at = write_one(places, at, b'"');
        let at = write_ipv6(places, at, address);
        let at = write_one(places, at, b'/');
        let at = write_octet(places, at, bits);
        self.len = write_one(places, at, b'"');
    }
}
