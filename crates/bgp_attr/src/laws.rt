//! Laws of the attribute field, of segments on the wire and of what is written.

ghost use Rattle.bgp_attr.specs.Field.{HasOneSplit};
ghost use Rattle.bgp_attr.specs.PathIn.{ReadsSegments};
ghost use Rattle.bgp_attr.specs.ReadBack.{ReadsBack};
ghost use Rattle.bgp_attr.specs.Segments.{TellsSegments};
ghost use Rattle.bgp_attr.specs.Split.{ReadsWhatIsSpelled};
ghost use Rattle.bgp_attr.specs.Writing.{WritesAField};

/// A field is the join of one list of attributes and one tail at most, and what is joined so is
/// what [`Attrs`](crate::Attrs) reads. That it is one, [`Attrs::new`](crate::Attrs::new) says.
pub fn one_split()
    ensures unique { HasOneSplit }
    ensures read { ReadsWhatIsSpelled }
{}

/// The test of segments is true exactly of a value that is such segments, one after the other, and
/// just these are read of it.
pub fn segments_are_told()
    ensures told { TellsSegments }
    ensures read { ReadsSegments }
{}

/// What is written is an attribute field of just these attributes.
pub fn writes_a_field()
    ensures { WritesAField }
{}

/// Of what is written for a path that is for this peer each attribute is Good and of a type of its
/// own, and the path is read back from it.
pub fn reads_back()
    ensures { ReadsBack }
{}
