//! The value of a route: its AS path (RFC 4271, 4.3 b; RFC 6793, 4.2.3) and what else its path
//! attributes say (RFC 4271, 5). Nothing of how they stand in a message.
//!
//! ```text
//! let mut as_path = AsPath::new(alloc);
//! as_path.push(Segment::new(SegmentKind::Sequence, numbers).ok_or(Empty)?)?;
//! let path = Path::new(alloc, PathParts { as_path, origin: Origin::Igp, .. })?;
//! let shared = path.clone()?; // takes no memory
//! ```
#![tactic(auto)]

mod as_path;
mod fit;
mod items;
mod large_community;
mod laws;
mod numbers;
mod path;

pub use as_path::{AsPath, Segment, SegmentKind, merge};
pub use fit::path_is_fit;
pub use items::Items;
pub use large_community::{LargeCommunity, are_distinct};
pub use laws::{equality_is_real, keeps_the_first, merge_keeps_the_count, one_leading_part};
pub use numbers::Numbers;
pub use path::{Aggregator, NextHop, Origin, Path, PathParts};
