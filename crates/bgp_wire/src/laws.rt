//! Laws of headers, of whole messages and of streams (RFC 4271, 4.1 and 6.1).

ghost use Rattle.std.specs.Prelude.{◌≡◌, ◌+◌, ℕ, List, length};
ghost use Rattle.bgp_wire.specs.declared.header.Limit.{Limit};
ghost use Rattle.bgp_wire.specs.declared.header.MessageType.{MessageType};
ghost use Rattle.bgp_wire.specs.declared.header.HeaderFaults.{HeaderFaults};
ghost use Rattle.bgp_wire.specs.Header.{IsBadLength, IsBadType};
ghost use Rattle.bgp_wire.specs.Message.{IsMessage, IsKeepalive, body_of, message_octets};
ghost use Rattle.bgp_wire.specs.Octets.{AreOctets};
ghost use Rattle.bgp_wire.specs.Verdict.{type_code, AreEachFault, AreFaults};
ghost use Rattle.bgp_wire.specs.Framing.{IsFrame, IsFraming};

/// Each stream splits into frames and a rest, and whatever splits it finds the same ones. So
/// what [`Frames`](crate::Frames) hands out doesn't depend on how the stream is cut into pieces.
pub fn each_stream_has_one_framing()
    ensures each { (limit : Limit) (stream : List ℕ)
        → (frames : List (List ℕ)) × (rest : List ℕ) × IsFraming limit stream frames rest }
    ensures one { (limit : Limit) (stream : List ℕ)
        (frames others : List (List ℕ)) (rest other : List ℕ)
        → IsFraming limit stream frames rest → IsFraming limit stream others other
        → (frames ≡ others) × (rest ≡ other) }
{}

/// A whole message of a known type whose Length is within its limits is a frame. So is a KEEPALIVE,
/// and what is written of a type and a body that isn't too short or too long for it. The other way
/// round, a frame is a whole message of its type.
pub fn whole_messages_are_frames()
    ensures message { (limit : Limit) (kind : ℕ) (octets : List ℕ)
        → IsMessage kind octets → ¬ IsBadType kind → ¬ IsBadLength limit kind (length octets)
        → IsFrame limit octets }
    ensures keepalive { (limit : Limit) (octets : List ℕ)
        → IsKeepalive octets → IsFrame limit octets }
    ensures written { (limit : Limit) (kind : MessageType) (body : List ℕ)
        → ¬ IsBadLength limit (type_code kind) (19 + length body)
        → IsFrame limit (message_octets (type_code kind) body)
        × (body_of (message_octets (type_code kind) body) ≡ body) }
    ensures back { (limit : Limit) (octets : List ℕ) → IsFrame limit octets
        → (kind : MessageType) × IsMessage (type_code kind) octets
        × (¬ IsBadLength limit (type_code kind) (length octets)) }
{}

/// A whole message is its header, as it is written of its type and its count of octets, and its
/// body.
pub fn each_message_is_its_header_and_body()
    ensures { (kind : ℕ) (octets : List ℕ) → AreOctets octets → IsMessage kind octets
        → octets ≡ message_octets kind (body_of octets) }
{}

/// A header has one set of faults: two that have each of its faults by itself are equal, and they
/// name just what is wrong with it.
pub fn each_header_has_one_set_of_faults()
    ensures one { (limit : Limit) (header : List ℕ) (faults others : HeaderFaults)
        → AreEachFault limit header faults → AreEachFault limit header others → faults ≡ others }
    ensures named { (limit : Limit) (header : List ℕ) (faults : HeaderFaults)
        → AreEachFault limit header faults → AreFaults limit header faults }
{}
