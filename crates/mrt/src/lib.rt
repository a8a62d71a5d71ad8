//! What gives octets and what takes them: captures of BGP sessions and raw streams of messages are
//! read from the one and written to the other.
//!
//! A capture is MRT records (RFC 6396): `Reader` reads those of one session, `write_record` writes
//! them.
//!
//! ```text
//! let mut source = FromRead::new(file);
//! let mut sink = FromWrite::new(writer);
//! let mut buffer = [0; 4096];
//! let count = source.read(&mut buffer)?;
//! write_all(&mut sink, &buffer[..count])?;
//! ```
#![tactic(auto)]

mod failure;
mod fault;
mod filling;
mod judging;
mod laws;
mod layout;
mod mem_sink;
mod mem_source;
mod others;
mod progress;
mod reader;
mod reading;
mod record;
mod refresh;
mod sink;
mod skipped;
mod source;
pub mod types;
mod writer;

pub use failure::Failed;
pub use fault::{CaptureFault, FaultKind};
pub use filling::{BLOCK, fill, pass_over};
pub use judging::{Found, Judged, Shows, has_other_length, is_state, judge};
pub use laws::{
    each_capture_has_one_reading, each_record_is_allowed, nothing_is_passed_over_unasked,
    passed_over_records_are_taken_out, the_first_route_refresh_is_refused,
    written_captures_are_read, written_records_are_read,
};
pub use layout::{
    Fields, Form, HEADER, LONGEST_BODY, PLAIN_BODY, RecordHeader, body_limit, form_of, is_bgp4mp,
    read_fields, read_header,
};
pub use mem_sink::{MemSink, SinkUpset};
pub use mem_source::{MemSource, SourceUpset};
pub use others::MOST_OTHERS;
pub use reader::Reader;
pub use record::{Endpoints, Record};
pub use refresh::{is_route_refresh, is_whole_refresh};
pub use sink::{FromWrite, Sink, write_all};
pub use skipped::{Skip, SkippedRecords};
pub use source::{FromRead, Source};
pub use writer::{WriteFault, is_writable, write_record};
