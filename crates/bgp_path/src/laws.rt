//! Laws of AS paths, of large communities and of equality.

ghost use Rattle.bgp_path.specs.AsPath.{HasOneLeadingPart, MergeKeepsTheCount};
ghost use Rattle.bgp_path.specs.LargeCommunities.{KeepsTheFirst};
ghost use Rattle.bgp_path.specs.SamePath.{EqualityIsReal};

/// Up to what a path counts it has one front of each count.
pub fn one_leading_part()
    ensures { HasOneLeadingPart }
{}

/// A merged path counts as many AS numbers as AS_PATH.
pub fn merge_keeps_the_count()
    ensures { MergeKeepsTheCount }
{}

/// Of large communities that are equal the first alone stays, each of the others in its place
/// (RFC 8092, 3).
pub fn keeps_the_first()
    ensures { KeepsTheFirst }
{}

/// `==` is true exactly of paths, AS paths, segments, lists of numbers and of large communities
/// with the same contents, whatever room they have.
pub fn equality_is_real()
    ensures { EqualityIsReal }
{}
