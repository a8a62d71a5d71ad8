//! Laws of objects, each on a function that does nothing.

ghost use Rattle.bgp_json_laws.specs.Laws.{AttributesDiffer, CapabilitiesDiffer};
ghost use Rattle.bgp_json_laws.specs.Laws.{MessagesDiffer, ObjectsDiffer};

/// States that two different capabilities have different objects (RFC 5492, 4).
pub fn each_capability_has_its_object()
    ensures { CapabilitiesDiffer }
{}

/// States that two different path attributes have different objects, however each is read
/// (RFC 4271, 4.3).
pub fn each_attribute_has_its_object()
    ensures { AttributesDiffer }
{}

/// States that the object of a message determines its octets: those of two different messages have
/// different objects, however each is read and wherever it stands (RFC 4271, 4).
pub fn each_message_has_its_object()
    ensures { MessagesDiffer }
{}

/// States the same of what the record of a message has: a message, or a header with faults.
pub fn each_object_has_its_octets()
    ensures { ObjectsDiffer }
{}
