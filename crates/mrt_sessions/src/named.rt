//! A record that names the two addresses of its session.

ghost use Rattle.mrt_sessions.specs.File.{NamesSession};

use crate::addresses::Addresses;
use crate::front::header_of;
use mrt::{HEADER, RecordHeader, read_fields};

/// A record of a file that is one of some session: of type BGP4MP or BGP4MP_ET, of a known subtype,
/// with a body that isn't too long and has its fields (RFC 6396, 4.4).
#[derive(Clone, Copy, Debug)]
pub struct NamedRecord<'a> {
    /// The offset of its first octet in the file.
    pub offset: u64,
    /// Its octets.
    pub octets: &'a [u8],
    ghost named: { NamesSession octets.now },
}

impl<'a> NamedRecord<'a> {
    ghost use Rattle.std.specs.Prelude.{◌≡◌};
    ghost use Rattle.mrt.specs.Capture.{micro_of};
    ghost use Rattle.mrt.specs.Found.{header_value};
    ghost use Rattle.mrt.specs.Layout.{body_of, content_in, header_of};
    ghost use Rattle.mrt_sessions.specs.File.{addresses_of};

    /// Its header.
    pub fn header(&self) -> RecordHeader
        ensures { header_value result ≡ header_of self.now.octets.now }
    {
        header_of(self.octets)
    }

    /// Its body.
    pub fn body(&self) -> &'a [u8]
        ensures { result.now ≡ body_of self.now.octets.now }
    {
        self.octets.split_at(HEADER).1
    }

    /// Returns the fraction of its second, in microseconds: below 1,000,000. None where it has none.
    pub fn micro(&self) -> Option<u32>
        ensures { result ≡ micro_of self.now.octets.now }
    {
        match read_fields(&self.header(), self.body()) {
            Some(fields) => fields.micro,
            None => unreachable!(),
        }
    }

    /// The addresses that it names.
    pub fn addresses(&self) -> Addresses
        ensures { result ≡ addresses_of self.now.octets.now }
    {
        match read_fields(&self.header(), self.body()) {
            Some(fields) => Addresses {
                peer: fields.ends.peer,
                local: fields.ends.local,
            },
            None => unreachable!(),
        }
    }

    /// Its content: the message, or the two states.
    pub fn content(&self) -> &'a [u8]
        ensures { result.now
            ≡ content_in (header_of self.now.octets.now) (body_of self.now.octets.now) }
    {
        match read_fields(&self.header(), self.body()) {
            Some(fields) => self.body().split_at(fields.content_at).1,
            None => unreachable!(),
        }
    }
}
