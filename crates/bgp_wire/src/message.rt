//! Whole messages (RFC 4271, 4.1): a header and a body.

ghost use Rattle.std.specs.Prelude.{◌≡◌, ◌↔◌, ◌<◌, ◌≤◌, ◌+◌, ◌++◌, [], IsTrue, IfSome, IfNone};
ghost use Rattle.std.specs.Prelude.{OnOk, OnErr, All, length, take, drop, vec_len, vec_capacity};
ghost use Rattle.bgp_wire.specs.Header.{length_of, type_of};
ghost use Rattle.bgp_wire.specs.Verdict.{type_code};
ghost use Rattle.bgp_wire.specs.Message.{IsMessage, body_of, message_octets};

use crate::header::{
    HEADER_LEN, MessageType, header_at, is_synchronized, put_header, read_length, read_type,
};
use std::alloc::{AllocError, Allocator};

/// Whether the octets are one message of this type.
fn is_message(kind: MessageType, octets: &[u8]) -> bool
    ensures { IsTrue result ↔ IsMessage (type_code kind) octets.now }
{
    let Some(header) = header_at(octets) else {
        return false;
    };
    if !is_synchronized(header) {
        return false;
    }
    if usize::from(read_length(header)) != octets.len() {
        return false;
    }
    read_type(header) == kind.code()
}

/// The body of a whole message of this type: what stands behind its header. `None` where the octets
/// are no such message: they are fewer than 19, a marker octet isn't 255, the Length isn't their
/// count, or the type is another. How long a message may be plays no part.
pub fn message_body(kind: MessageType, octets: &[u8]) -> Option<&[u8]>
    ensures some { IfSome result (λ body. IsMessage (type_code kind) octets.entry.now) }
    ensures body { IfSome result (λ body. body.now ≡ body_of octets.entry.now) }
    ensures none { IfNone result (¬ IsMessage (type_code kind) octets.entry.now) }
{
    if is_message(kind, octets) {
        Some(octets.split_at(HEADER_LEN).1)
    } else {
        None
    }
}

/// Appends a KEEPALIVE, which is a header alone (RFC 4271, 4.4). Where there is no memory for it
/// the vector is as before.
#[tactic(auto, unfolding(crate::specs::Message::message_octets))]
pub fn put_keepalive<A: Allocator>(out: &mut Vec<u8, A>) -> Result<(), AllocError>
    ensures ok { OnOk result (out.new.items ≡ out.old.items ++ message_octets 4 []) }
    ensures err { OnErr result (out.new.items ≡ out.old.items) }
    ensures memory { OnErr result (vec_capacity out.old < vec_len out.old + 19) }
{
    out.reserve(HEADER_LEN)?;
    put_header(out, MessageType::Keepalive, HEADER_LEN as u16);
    Ok(())
}
