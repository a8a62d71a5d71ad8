//! NOTIFICATION messages (RFC 4271, 4.5).
//!
//! ```text
//!  0      1         2
//! +------+---------+------------------+
//! | Code | Subcode | Data, to the end |
//! +------+---------+------------------+
//! ```

ghost use Rattle.std.specs.Prelude.{◌≡◌, ◌<◌, ◌+◌, ◌++◌, ◌↔◌, ℕ, List};
ghost use Rattle.std.specs.Prelude.{IfSome, IfNone, OnOk, OnErr, Err};
ghost use Rattle.std.specs.Prelude.{length, drop, vec_len, vec_capacity};
ghost use Rattle.bgp_open.specs.Notification.{IsNotification};
ghost use Rattle.bgp_open.specs.Written.{notification_octets, notification_write_number};

use bgp_wire::{MessageType, message_body, put, put_header, put_u8};
use std::alloc::Allocator;
use thiserror::Error;

/// The octets before the data.
const DETAIL_AT: usize = 21; // header 19, code 1, subcode 1

/// The most octets of data (RFC 4271, 4.1).
const MOST_DETAIL: usize = 4075; // message 4096, less 21 before the data

/// A NOTIFICATION, which says why a speaker closes the connection.
#[derive(Clone, Copy, Debug, PartialEq, Eq)]
pub struct Notification<'a> {
    /// The Error code.
    pub code: u8,
    /// The Error subcode, 0 if the code has none.
    pub subcode: u8,
    /// The Data, which say more.
    pub detail: &'a [u8],
}

/// Reads a whole NOTIFICATION. Returns `None` if the octets aren't a whole message of this type, or
/// have no code and subcode.
pub fn read_notification(octets: &[u8]) -> Option<Notification<'_>>
    ensures some { IfSome result (λ notification. IsNotification octets.entry.now
        notification.code notification.subcode notification.detail.now) }
    ensures none { IfNone result ((code subcode : ℕ) (detail : List ℕ)
        → ¬ IsNotification octets.entry.now code subcode detail) }
{
    let body = message_body(MessageType::Notification, octets)?;
    if body.len() < 2 {
        return None;
    }
    let (fields, detail) = body.split_at(2);
    Some(Notification {
        code: fields[0],
        subcode: fields[1],
        detail,
    })
}

/// Why a NOTIFICATION isn't written.
#[derive(Clone, Copy, Debug, PartialEq, Eq, Error)]
pub enum NotificationWriteFault {
    /// It has more than 4075 octets of data, so the message would have more than 4096.
    #[error("the data of the NOTIFICATION are too large")]
    TooLarge = 1,
    /// Memory ran out.
    #[error("out of memory")]
    Memory = 2,
}

impl NotificationWriteFault {
    /// Returns the fault's number: 1 for data that are too large, 2 for memory.
    pub fn number(self) -> u8
        ensures { result ≡ notification_write_number self }
    {
        self as u8
    }
}

/// Appends a NOTIFICATION. After a fault the vector is unchanged.
pub fn write_notification<A: Allocator>(
    notification: &Notification<'_>,
    out: &mut Vec<u8, A>,
) -> Result<(), NotificationWriteFault>
    ensures ok { OnOk result (out.new.items ≡ out.old.items ++ notification_octets
        notification.now.code notification.now.subcode notification.now.detail.now) }

    // What was appended reads as what was given.
    ensures reads_back { OnOk result (IsNotification (drop (length out.old.items) out.new.items)
        notification.now.code notification.now.subcode notification.now.detail.now) }

    ensures err { OnErr result (out.new.items ≡ out.old.items) }
    ensures too_large { (result ≡ Err NotificationWriteFault.TooLarge)
        ↔ (4075 < length notification.now.detail.now) }
    ensures memory { result ≡ Err NotificationWriteFault.Memory
        → vec_capacity out.old < vec_len out.old + 21 + length notification.now.detail.now }
{
    if notification.detail.len() > MOST_DETAIL {
        return Err(NotificationWriteFault::TooLarge);
    }
    let length = DETAIL_AT + notification.detail.len();
    if let Err(_) = out.reserve(length) {
        return Err(NotificationWriteFault::Memory);
    }
    put_header(out, MessageType::Notification, length as u16);
    put_u8(out, notification.code);
    put_u8(out, notification.subcode);
    put(out, notification.detail);
    Ok(())
}
