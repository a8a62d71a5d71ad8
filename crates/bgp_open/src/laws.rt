//! Laws of OPENs and NOTIFICATIONs: octets are read in the only way there is, what is written is a
//! frame, and what a set of faults names determines the set.

ghost use Rattle.std.specs.Prelude.{◌≡◌, ◌≤◌, ◌↔◌, ◌⊎◌, ◌++◌, IsTrue, ℕ, List, length};
ghost use Rattle.std.specs.List.{flat_map};
ghost use Rattle.byteorder.specs.Endian.{big_bytes};
ghost use Rattle.bgp_wire.specs.Framing.{IsFrame};
ghost use Rattle.bgp_wire.specs.Octets.{AreOctets};
ghost use Rattle.bgp_wire.specs.declared.header.Limit.{Limit};
ghost use Rattle.bgp_open.specs.Triplet.{Triplet, IsCutTriplet, IsWhole};
ghost use Rattle.bgp_open.specs.Triplet.{triplets_octets, triplets_of};
ghost use Rattle.bgp_open.specs.Open.{IsOpen};
ghost use Rattle.bgp_open.specs.OpenFault.{IsReadable, IsWellFormed, IsAnswered, HasOpenFault};
ghost use Rattle.bgp_open.specs.OpenFault.{IsOtherVersion, open_fault_number};
ghost use Rattle.bgp_open.specs.Open.{OpenFields, open_of, parameters_of, capabilities_in};
ghost use Rattle.bgp_open.specs.OpenSubcodes.{mandatory_faults, permitted_faults};
ghost use Rattle.bgp_open.specs.OpenSubcodes.{Names, AreSubcodesOf, union};
ghost use Rattle.bgp_open.specs.Link.{link_of};
ghost use Rattle.bgp_open.specs.OwnOpen.{IsOwnOpen, own_fields};
ghost use Rattle.bgp_open.specs.RouteForm.{plain_form};
ghost use Rattle.bgp_open.specs.RouteOffer.{nothing, offers_next_hops, route_offer_in};
ghost use Rattle.bgp_open.specs.TwoEnds.{SettleEnds};
ghost use Rattle.bgp_open.specs.Written.{FitsOpen, open_with, open_octets, parameters_with};
ghost use Rattle.bgp_open.specs.Written.{notification_octets};
ghost use Rattle.bgp_open.specs.declared.subcodes.OpenSubcodes.{OpenSubcodes};
ghost use Rattle.bgp_open.specs.declared.config.Config.{Config};
ghost use Rattle.bgp_open.specs.declared.fault.OpenFault.{OpenFault};

/// Octets split in exactly one way into triplets, as parameters and capabilities are, and a rest
/// that doesn't begin with a whole triplet. Those are the triplets that are read (RFC 4271, 4.2;
/// RFC 5492, 4).
pub fn one_reading()
    ensures reads { (octets : List ℕ) → (cut : List ℕ)
        × (octets ≡ triplets_octets (triplets_of octets) ++ cut) × IsCutTriplet cut }
    ensures once { (triplets others : List Triplet) (cut rest : List ℕ)
        → triplets_octets triplets ++ cut ≡ triplets_octets others ++ rest
        → IsCutTriplet cut → IsCutTriplet rest → triplets ≡ others }
    ensures reads_back { (triplets : List Triplet)
        → triplets_of (triplets_octets triplets) ≡ triplets }
    ensures whole { (octets : List ℕ)
        → IsWhole octets ↔ ((triplets : List Triplet) × (octets ≡ triplets_octets triplets)) }
{}

/// Octets are a well-formed OPEN, or there is exactly one fault that `read_open` may return. If the
/// octets are an OPEN of version 4, that fault has the least number of all that the OPEN has.
/// `open_faults` has this fault among those for which the OPEN has to be refused, with `00 04` as
/// the data of subcode 1.
pub fn one_fault()
    ensures each { (octets : List ℕ)
        → IsWellFormed octets ⊎ ((fault : OpenFault) × IsAnswered octets fault) }
    ensures one { (octets : List ℕ) (fault other : OpenFault)
        → IsAnswered octets fault → IsAnswered octets other → fault ≡ other }
    ensures none { (octets : List ℕ) (fault : OpenFault)
        → IsWellFormed octets → ¬ IsAnswered octets fault }
    ensures least { (octets : List ℕ) (fault other : OpenFault)
        → IsOpen octets → (¬ IsOtherVersion octets)
        → IsAnswered octets fault → HasOpenFault octets other
        → HasOpenFault octets fault × (open_fault_number fault ≤ open_fault_number other) }
    ensures mandatory { (config : Config) (octets : List ℕ) (fault : OpenFault)
        → IsAnswered octets fault
        → mandatory_faults config octets (open_fault_number fault) (big_bytes 2 4) }
{}

/// A readable OPEN is its header, its fixed fields and its parameters, however many there are. Its
/// capabilities are those of all its parameters, joined.
pub fn each_readable_open_is_its_parts()
    ensures parts { (octets : List ℕ) → AreOctets octets → IsReadable octets
        → octets ≡ open_with (open_of octets).my_as (open_of octets).hold (open_of octets).id
        (triplets_of (parameters_of octets)) }
    ensures capabilities { (octets : List ℕ) → (open_of octets).capabilities
        ≡ flat_map capabilities_in (triplets_of (parameters_of octets)) }
{}

/// An OPEN that is written reads back as what was written. It is well-formed, and has all
/// capabilities in one parameter, or no parameter if there are no capabilities.
pub fn written_open_reads_back()
    ensures { (fields : OpenFields) → FitsOpen fields → IsWellFormed (open_octets fields)
        × (open_of (open_octets fields) ≡ fields)
        × (triplets_of (parameters_of (open_octets fields)) ≡ parameters_with fields.capabilities) }
{}

/// A NOTIFICATION that is written has no header fault under any [`Limit`](bgp_wire::Limit).
pub fn written_notification_is_a_frame()
    ensures { (code subcode : ℕ) (detail : List ℕ) → length detail ≤ 4075
        → (limit : Limit) → IsFrame limit (notification_octets code subcode detail) }
{}

/// For every configuration there is an OPEN that the local system may send: the one that
/// `write_own_open` writes. Its numbers fit the fields of an OPEN, it consists of octets, and it
/// offers about routes exactly what is configured. A well-formed OPEN has no header fault under any
/// [`Limit`](bgp_wire::Limit).
pub fn own_open_exists()
    ensures own { (config : Config) → IsOwnOpen config (open_octets (own_fields config)) }
    ensures offers { (config : Config)
        → route_offer_in (open_of (open_octets (own_fields config))) ≡ config.parts.offers }
    ensures fits { (config : Config) → FitsOpen (own_fields config) }
    ensures octets { (config : Config) → AreOctets (open_octets (own_fields config)) }
    ensures frame { (octets : List ℕ) → AreOctets octets → IsWellFormed octets
        → (limit : Limit) → IsFrame limit octets }
{}

/// If the configuration offers nothing about routes, and the peer's OPEN offers no IPv6 next hops,
/// routes are spelled plainly in both directions, whatever else the peer offers.
pub fn plain_forms()
    ensures { (config : Config) (message : OpenFields) → config.parts.offers ≡ nothing
        → (¬ IsTrue (offers_next_hops message.capabilities))
        → ((link_of config message).received ≡ plain_form)
        × ((link_of config message).sent ≡ plain_form) }
{}

/// Two systems that are configured for one another settle the two ends of one session: from each
/// other's OPENs both have the same Hold Time, width of AS numbers and families, and what one sends
/// is spelled as what the other receives. Each OPEN has to offer about routes what is configured.
pub fn both_ends_settle_one_session()
    ensures { SettleEnds }
{}

/// Sets of subcodes that name the same faults are equal. So there is only one set of the faults for
/// which an OPEN has to be refused, and only one of those for which it may be.
pub fn one_set_of_subcodes()
    ensures same { (subcodes others : OpenSubcodes)
        → ((subcode : ℕ) (detail : List ℕ)
        → (Names subcodes subcode detail ↔ Names others subcode detail))
        → subcodes ≡ others }
    ensures mandatory { (config : Config) (octets : List ℕ) (subcodes others : OpenSubcodes)
        → AreSubcodesOf (mandatory_faults config octets) subcodes
        → AreSubcodesOf (mandatory_faults config octets) others → subcodes ≡ others }
    ensures permitted { (octets : List ℕ) (subcodes others : OpenSubcodes)
        → AreSubcodesOf (permitted_faults octets) subcodes
        → AreSubcodesOf (permitted_faults octets) others → subcodes ≡ others }
{}

/// The union of two sets of subcodes names exactly what at least one of the two names.
pub fn subcodes_of_both_sets()
    ensures { (subcodes others : OpenSubcodes) (subcode : ℕ) (detail : List ℕ)
        → (Names (union subcodes others) subcode detail
        ↔ (Names subcodes subcode detail ⊎ Names others subcode detail)) }
{}
