//! Laws of these words, each on a function that does nothing: one fact has one text.

ghost use Rattle.std.specs.Prelude.{◌≡◌, Bool};
ghost use Rattle.bgp_open.specs.declared.families.Families.{Families};
ghost use Rattle.bgp_attr.specs.Field.{Attribute};
ghost use Rattle.bgp_names.specs.Families.{families_name};
ghost use Rattle.bgp_names.specs.Naming.{NamesOfTwoDiffer};
ghost use Rattle.bgp_parts.specs.declared.attribute.AttributeFault.{AttributeFault};
ghost use Rattle.bgp_why_parts.specs.Codes.{code_text, full_code_text};
ghost use Rattle.bgp_why_parts.specs.Updates.{fault_text};

/// States that two pairs of an error code and a subcode have different texts.
pub fn each_code_has_its_text()
    ensures short { NamesOfTwoDiffer code_text }
    ensures full { NamesOfTwoDiffer full_code_text }
{}

/// States that two sets of families have different texts.
pub fn each_set_of_families_has_its_text()
    ensures { (one other : Families) → families_name one ≡ families_name other → one ≡ other }
{}

/// States that two faults of an attribute have different texts.
pub fn each_fault_has_its_text()
    ensures { (is_sent : Bool) (a : Attribute) (one other : AttributeFault)
        → fault_text is_sent a one ≡ fault_text is_sent a other → one ≡ other }
{}
