//! What the data of a NOTIFICATION say (RFC 4271, 4.5).

ghost use Rattle.std.specs.Prelude.{◌≡◌, option_map};
ghost use Rattle.bgp_values.specs.ErrorData.{cause_of, communication_in, data_of, data_value};
ghost use Rattle.bgp_values.specs.ErrorData.{error_of, maximum_in};

use crate::readable::read_text;
use bgp_open::Notification;
use bgp_wire::ErrorCode;
use byteorder::{BigEndian, ByteOrder};

/// What the data of a NOTIFICATION say.
#[derive(Clone, Copy, Debug, PartialEq, Eq)]
pub enum ErrorData<'a> {
    /// Why the session is shut down or reset, as a person has written it (RFC 9003, 2).
    Communication(&'a str),
    /// How many prefixes of a family may be announced (RFC 4486, 4).
    Maximum {
        /// The Address Family Identifier.
        afi: u16,
        /// The Subsequent Address Family Identifier.
        safi: u8,
        /// The number of prefixes.
        prefixes: u32,
    },
}

/// Reads a communication: an octet that counts the others, which are readable.
fn communication_in(detail: &[u8]) -> Option<ErrorData<'_>>
    ensures { option_map data_of result ≡ communication_in detail.entry.now }
{
    let Some((count, text)) = detail.split_first() else {
        return None;
    };
    if usize::from(*count) != text.len() {
        return None;
    }
    match read_text(text) {
        Some(text) => Some(ErrorData::Communication(text)),
        None => None,
    }
}

/// Reads a maximum: AFI, SAFI and number of prefixes.
fn maximum_in(detail: &[u8]) -> Option<ErrorData<'_>>
    ensures { option_map data_of result ≡ maximum_in detail.entry.now }
{
    if detail.len() != 7 {
        return None;
    }
    Some(ErrorData::Maximum {
        afi: BigEndian::read_u16(detail),
        safi: detail[2],
        prefixes: BigEndian::read_u32(&detail[3..]),
    })
}

impl<'a> ErrorData<'a> {
    /// Returns what the data of an error say, if they say something.
    pub fn of(error: Notification<'a>) -> Option<ErrorData<'a>>
        ensures { option_map data_of result ≡ data_value (error_of error.entry) }
    {
        if error.code != ErrorCode::Cease.code() {
            return None;
        }
        match error.subcode {
            1 => maximum_in(error.detail),
            2 | 4 => communication_in(error.detail),
            _ => None,
        }
    }
}

/// Returns the error for which a Hard Reset is sent (RFC 8538, 3).
pub fn cause_of(error: Notification<'_>) -> Option<Notification<'_>>
    ensures { option_map error_of result ≡ cause_of (error_of error.entry) }
{
    if error.code != ErrorCode::Cease.code() || error.subcode != 9 {
        return None;
    }
    match error.detail {
        [code, subcode, detail @ ..] => Some(Notification {
            code: *code,
            subcode: *subcode,
            detail,
        }),
        _ => None,
    }
}
