//! The records of one end of a connection as a ladder in HTML: a row a record, with its time, its
//! packet and its number; a message as an arrow between both ends, a change of state in the column
//! of the end that is judged. A stretch of a session in an MRT file has no packets.
//!
//! ```text
//! put_head(&mut lines, ladder.column, ladder.numbering, caption, left, right);
//! put_rows(alloc, &mut lines, &ladder, possible, &entries);
//! put_tag(&mut lines, Tag::LadderEnd);
//! ```
#![tactic(auto)]

mod batch;
mod cells;
mod deed;
mod head;
mod laws;
mod numbering;
mod possible;
mod rows;
mod runs;
mod sums;

pub use head::put_head;
pub use laws::{each_line_has_a_row, rows_are_not_printed};
pub use numbering::Numbering;
pub use rows::{Ladder, put_rows};
