//! Laws of names, each on a function that does nothing: what is different has different names, and
//! a name has no octet that a line or a text of JSON would have to spell otherwise.

ghost use Rattle.std.specs.Prelude.{ℕ};
ghost use Rattle.bgp_names.specs.Naming.{NamesDiffer, NamesOfTwoDiffer};
ghost use Rattle.bgp_names.specs.Naming.{NamesArePlain, NamesOfTwoArePlain};
ghost use Rattle.bgp_names.specs.Errors.{code_name, error_name, short_error_name, subcode_name};
ghost use Rattle.bgp_names.specs.States.{state_name};
ghost use Rattle.bgp_names.specs.Families.{afi_name, family_name};
ghost use Rattle.bgp_names.specs.Capabilities.{capability_name};
ghost use Rattle.bgp_names.specs.Attributes.{attribute_name, attribute_word};
ghost use Rattle.bgp_names.specs.Messages.{type_text};

/// States that two error codes have different names, that two subcodes of one code have, and that
/// two pairs of a code and a subcode have.
pub fn each_error_has_its_name()
    ensures codes { NamesDiffer code_name }
    ensures subcodes { (code : ℕ) → NamesDiffer (subcode_name code) }
    ensures errors { NamesOfTwoDiffer error_name }
{}

/// States that two states have different names.
pub fn each_state_has_its_name()
    ensures { NamesDiffer state_name }
{}

/// States that two families have different names, and two Address Family Identifiers.
pub fn each_family_has_its_name()
    ensures families { NamesOfTwoDiffer family_name }
    ensures afis { NamesDiffer afi_name }
{}

/// States that two capabilities have different names.
pub fn each_capability_has_its_name()
    ensures { NamesDiffer capability_name }
{}

/// States that two attributes have different names, and different words.
pub fn each_attribute_has_its_name()
    ensures names { NamesDiffer attribute_name }
    ensures words { NamesDiffer attribute_word }
{}

/// States that two message types have different texts.
pub fn each_message_type_has_its_name()
    ensures { NamesDiffer type_text }
{}

/// States that names have no control characters, no quotation marks, no backslashes and nothing
/// beyond ASCII.
pub fn each_name_is_plain()
    ensures codes { NamesArePlain code_name }
    ensures subcodes { (code : ℕ) → NamesArePlain (subcode_name code) }
    ensures errors { NamesOfTwoArePlain error_name }
    ensures short_errors { NamesOfTwoArePlain short_error_name }
    ensures states { NamesArePlain state_name }
    ensures families { NamesOfTwoArePlain family_name }
    ensures afis { NamesArePlain afi_name }
    ensures capabilities { NamesArePlain capability_name }
    ensures attributes { NamesArePlain attribute_name }
    ensures words { NamesArePlain attribute_word }
    ensures types { NamesArePlain type_text }
{}
