//! The lines of a reason in words: why a verdict is a no or unfinished, as `bgp judge --explain`
//! and `bgp check` say it to a reader who knows BGP and none of the documents here.
//!
//! Records are named by a [`Place`] with its time. What each text is, is stated in `specs/`. The
//! lines are put into [`Lines`](bgp_text::Lines), in this order:
//!
//! ```text
//! let style = Style::plain(first, false);
//! put_record_line(&mut lines, &style, place, &session, link, &shown, &possible, &lacks);
//! put_not_whole(&mut lines, NotWhole::of(link, &shown));
//! put_state(&mut lines, &style, told.state, since);
//! put_last_received(&mut lines, &style, received, &asked);
//! put_possible_but(&mut lines, &style, &possible, &lacks);
//! put_notes(&mut lines, &style, &notes);
//! ```
#![tactic(auto)]

mod applying;
mod asked;
mod cause;
mod deed;
mod endpoint;
mod errors;
mod items;
mod lacks;
mod laws;
mod message;
mod message_line;
mod note_lines;
mod notes;
mod other_lines;
mod other_orders;
mod place;
mod possible;
mod reasons;
mod refusal;
mod state;
mod style;
mod whole;

pub use applying::{Applying, AskedUpdate, put_last_update, put_update_asks};
pub use asked::{Asked, Received, put_asked, put_last_received};
pub use bgp_why_parts::{OwnFaults, Room, put_cut, put_full_code};
pub use cause::put_cause;
pub use deed::{put_deed, put_record_line};
pub use endpoint::{Endpoint, put_endpoint};
pub use items::{ITEMS, Item, put_item};
pub use lacks::{Lacks, put_but};
pub use laws::{lines_tell_all_that_may_follow, other_orders_tell_the_rest};
pub use message::{MessageName, put_name};
pub use message_line::{put_data_line, put_message_line};
pub use note_lines::{NOTES, Note, put_note_text, put_notes, shown_notes};
pub use notes::Notes;
pub use other_lines::other_items;
pub use other_orders::OtherOrders;
pub use place::{Place, put_place};
pub use possible::{put_possible, put_possible_but, shown_items};
pub use refusal::{FieldReasons, OpenReasons, open_reasons};
pub use state::{SentAlready, put_another_as, put_sent_already, put_state};
pub use style::Style;
pub use whole::{NotWhole, put_not_whole, unfit_text};
