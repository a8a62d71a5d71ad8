//! Writing JSON.

ghost use Rattle.std.specs.Prelude.{◌≡◌, ◌<◌, ◌++◌, ◌∷◌, [], codes, false, true, length};
ghost use Rattle.std.specs.Prelude.{List, OnOk};
ghost use Rattle.std.specs.Fmt.{decimal};
ghost use Rattle.std.specs.Str.{IsUtf8};
ghost use Rattle.hex.specs.Hex.{encode_lower};
ghost use Rattle.json.specs.Lex.{tokens};
ghost use Rattle.json.specs.Print.{print};
ghost use Rattle.json.specs.Token.{Token, begin_array, begin_object, boolean, end_array, end_object};
ghost use Rattle.json.specs.Token.{key, number, string};
ghost use Rattle.json.specs.Written.{Writes};
ghost use Rattle.bgp_prefix.specs.Text.{address_text};
ghost use Rattle.bgp_prefix.specs.declared.address.Address.TheVariants.{V4, V6};
ghost use Rattle.json_writer.specs.Piece.{IsPiece};

use crate::buffer::Buffer;
use crate::escaping::{put_key, put_quoted};
use std::alloc::{AllocError, Allocator, Global};
use std::marker::Model;

/// JSON that is written. A contract sees its tokens.
#[derive(Drop)]
pub struct Writer<A: Allocator = Global> {
    out: Buffer<A>,
    after_value: bool,
}

impl<A: Allocator> Model for Writer<A> {
    ghost use Rattle.json.specs.Written.{Written, written_code};

    ghost Value = { Written };

    ghost coded = { written_code };

    ghost use Rattle.json_writer.specs.Writer.{IsWriter, writer_view};

    ghost view = { writer_view };

    ghost invariant = { IsWriter };
}

impl<A: Allocator> Writer<A> {
    /// Starts with no token.
    pub fn new(alloc: A) -> Writer<A>
        ensures before { result.before ≡ [] }
        ensures tokens { result.tokens ≡ [] }
    {
        Writer {
            out: Buffer::new(alloc),
            after_value: false,
        }
    }

    /// Returns the text of what was written.
    pub fn into_inner(self) -> Vec<u8, A>
        ensures items { result.items ≡ self.before ++ print self.tokens }
        ensures reads_back { tokens (print self.tokens) ≡ self.tokens }
        ensures utf8 { IsUtf8 (print self.tokens) }
    {
        let Writer { out, .. } = self;
        out.into_text()
    }

    /// Makes room for so many octets, so that writing them asks for no memory.
    pub fn make_room(&mut self, count: usize) -> Result<(), AllocError>
        ensures { self.new ≡ self.old }
    {
        self.out.make_room(count)
    }

    /// Writes `{`.
    #[inline(always)]
    pub fn begin_object(&mut self) -> Result<(), AllocError>
        ensures { Writes result self.old self.new begin_object }
    {
        self.out.make_room(2)?;
        self.out.put(self.after_value, b"{");
        self.after_value = false;
        Ok(())
    }

    /// Writes `}`.
    #[inline(always)]
    pub fn end_object(&mut self) -> Result<(), AllocError>
        ensures { Writes result self.old self.new end_object }
    {
        self.out.make_room(2)?;
        self.out.put(false, b"}");
        self.after_value = true;
        Ok(())
    }

    /// Writes `[`.
    #[inline(always)]
    pub fn begin_array(&mut self) -> Result<(), AllocError>
        ensures { Writes result self.old self.new begin_array }
    {
        self.out.make_room(2)?;
        self.out.put(self.after_value, b"[");
        self.after_value = false;
        Ok(())
    }

    /// Writes `]`.
    #[inline(always)]
    pub fn end_array(&mut self) -> Result<(), AllocError>
        ensures { Writes result self.old self.new end_array }
    {
        self.out.make_room(2)?;
        self.out.put(false, b"]");
        self.after_value = true;
        Ok(())
    }

    /// Writes a key. It is made for literals.
    #[inline(always)]
    pub fn key(&mut self, name: &str) -> Result<(), AllocError>
        ensures { Writes result self.old self.new (key name.now) }
    {
        put_key(&mut self.out, self.after_value, name.as_bytes())?;
        self.after_value = false;
        Ok(())
    }

    /// Writes a text that is a literal: see [`string`](Writer::string).
    #[inline(always)]
    pub fn word(&mut self, text: &str) -> Result<(), AllocError>
        ensures { Writes result self.old self.new (string text.now) }
    {
        put_quoted(&mut self.out, self.after_value, text.as_bytes())?;
        self.after_value = true;
        Ok(())
    }

    /// Writes a text.
    #[inline(never)]
    pub fn string(&mut self, text: &str) -> Result<(), AllocError>
        ensures { Writes result self.old self.new (string text.now) }
    {
        self.word(text)
    }

    /// Writes a text that several tokens have, as `{"type":1,"name":`. It ends in a key or an
    /// opening bracket.
    #[inline(always)]
    pub fn piece(&mut self, text: &str) -> Result<(), AllocError>
        requires { (ts : List Token) × IsPiece ts text.now }
        ensures tokens { (ts : List Token) → IsPiece ts text.now
            → OnOk result (self.new.tokens ≡ self.old.tokens ++ ts) }
        ensures before { OnOk result (self.new.before ≡ self.old.before) }
    {
        let octets = text.as_bytes();
        self.out.make_room(octets.len() + 1)?;
        self.out.put(self.after_value, octets);
        self.after_value = false;
        Ok(())
    }

    /// Writes a piece, a number of one octet and another piece, as `{"flags":64,"value":`.
    #[inline(always)]
    pub fn around_u8(&mut self, front: &str, n: u8, back: &str) -> Result<(), AllocError>
        requires short { length back.now < 60 }
        requires front { (ts : List Token) × IsPiece ts front.now }
        requires back { (ts : List Token) × IsPiece ts back.now }
        ensures tokens { (ts us : List Token) → IsPiece ts front.now → IsPiece us back.now
            → OnOk result (self.new.tokens ≡ self.old.tokens ++ (ts ++ number (decimal n) ∷ us)) }
        ensures before { OnOk result (self.new.before ≡ self.old.before) }
    {
        let first = front.as_bytes();
        let second = back.as_bytes();
        self.out.make_room(first.len() + 64)?;
        self.out.put_around(self.after_value, first, n, second);
        self.after_value = false;
        Ok(())
    }

    /// Writes a number of one octet.
    #[inline(always)]
    pub fn u8(&mut self, n: u8) -> Result<(), AllocError>
        ensures { Writes result self.old self.new (number (decimal n)) }
    {
        self.out.make_room(5)?;
        self.out.put_octet(self.after_value, n);
        self.after_value = true;
        Ok(())
    }

    /// Writes a number.
    #[inline(always)]
    pub fn u32(&mut self, n: u32) -> Result<(), AllocError>
        ensures { Writes result self.old self.new (number (decimal n)) }
    {
        self.out.make_room(14)?;
        self.out.put_decimal(self.after_value, n);
        self.after_value = true;
        Ok(())
    }

    /// Writes a number.
    #[inline(never)]
    pub fn u64(&mut self, n: u64) -> Result<(), AllocError>
        ensures { Writes result self.old self.new (number (decimal n)) }
    {
        match u32::try_from(n) {
            Ok(few) => self.u32(few),
            Err(_) => self.long(n),
        }
    }

    /// Writes a number that has more than 32 bits.
    fn long(&mut self, n: u64) -> Result<(), AllocError>
        ensures { Writes result self.old self.new (number (decimal n)) }
    {
        let mut buffer = itoa::Buffer::new();
        let text = buffer.format(n).as_bytes();
        self.out.make_room(text.len() + 1)?;
        self.out.put(self.after_value, text);
        self.after_value = true;
        Ok(())
    }

    /// Writes a number as a text, for readers that have numbers of 53 bits.
    pub fn quoted_u64(&mut self, n: u64) -> Result<(), AllocError>
        ensures { Writes result self.old self.new (string (decimal n)) }
    {
        let mut buffer = itoa::Buffer::new();
        self.string(buffer.format(n))
    }

    /// Writes `true` or `false`.
    pub fn boolean(&mut self, is_so: bool) -> Result<(), AllocError>
        ensures { Writes result self.old self.new (boolean is_so) }
    {
        if is_so {
            self.put_true()
        } else {
            self.put_false()
        }
    }

    fn put_true(&mut self) -> Result<(), AllocError>
        ensures { Writes result self.old self.new (boolean true) }
    {
        self.out.make_room(5)?;
        self.out.put(self.after_value, b"true");
        self.after_value = true;
        Ok(())
    }

    fn put_false(&mut self) -> Result<(), AllocError>
        ensures { Writes result self.old self.new (boolean false) }
    {
        self.out.make_room(6)?;
        self.out.put(self.after_value, b"false");
        self.after_value = true;
        Ok(())
    }

    /// Writes two numbers with a colon between them, as a text.
    pub fn pair(&mut self, first: u32, second: u32) -> Result<(), AllocError>
        ensures { Writes result self.old self.new
            (string (decimal first ++ (codes ":" ++ decimal second))) }
    {
        self.out.make_room(28)?;
        self.out.put_pair(self.after_value, first, second);
        self.after_value = true;
        Ok(())
    }

    /// Writes three numbers with colons between them, as a text.
    pub fn triple(&mut self, first: u32, second: u32, third: u32) -> Result<(), AllocError>
        ensures { Writes result self.old self.new (string
            (decimal first ++ (codes ":" ++ (decimal second ++ (codes ":" ++ decimal third))))) }
    {
        self.out.make_room(41)?;
        self.out.put_triple(self.after_value, first, second, third);
        self.after_value = true;
        Ok(())
    }

    /// Writes octets in hexadecimal, as a text.
    pub fn hex(&mut self, octets: &[u8]) -> Result<(), AllocError>
        ensures { Writes result self.old self.new (string (encode_lower octets.now)) }
    {
        self.out.make_hex_room(octets.len())?;
        self.out.put_hex(self.after_value, octets);
        self.after_value = true;
        Ok(())
    }

    /// Writes an IPv4 address in dotted decimal, as a text.
    pub fn ipv4(&mut self, address: u32) -> Result<(), AllocError>
        ensures { Writes result self.old self.new (string (address_text (V4 address))) }
    {
        self.out.make_room(19)?;
        self.out.put_ipv4(self.after_value, address);
        self.after_value = true;
        Ok(())
    }

    /// Writes an IPv4 address in dotted decimal, `/` and a count of bits, as a text.
    pub fn ipv4_prefix(&mut self, address: u32, bits: u8) -> Result<(), AllocError>
        ensures { Writes result self.old self.new
            (string (address_text (V4 address) ++ (codes "/" ++ decimal bits))) }
    {
        self.out.make_room(23)?;
        self.out.put_ipv4_prefix(self.after_value, address, bits);
        self.after_value = true;
        Ok(())
    }

    /// Writes an IPv6 address in the form of RFC 5952, in hexadecimal alone, as a text.
    pub fn ipv6(&mut self, address: u128) -> Result<(), AllocError>
        ensures { Writes result self.old self.new (string (address_text (V6 address))) }
    {
        self.out.make_room(45)?;
        self.out.put_ipv6(self.after_value, address);
        self.after_value = true;
        Ok(())
    }

    /// Writes an IPv6 address in that form, `/` and a count of bits, as a text.
    pub fn ipv6_prefix(&mut self, address: u128, bits: u8) -> Result<(), AllocError>
        ensures { Writes result self.old self.new
            (string (address_text (V6 address) ++ (codes "/" ++ decimal bits))) }
    {
        self.out.make_room(50)?;
        self.out.put_ipv6_prefix(self.after_value, address, bits);
        self.after_value = true;
        Ok(())
    }
}
