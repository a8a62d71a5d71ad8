//! The commands of the program `bgp`, over files and standard streams: a command line from its
//! words to the exit status, and a sentence on standard error for what went wrong.
//!
//! ```text
//! let status = run_words(rt, &rt.stderr(), words.as_slice());
//! ```
//!
//! A command that reads a file is answered over any reader and any writer ([`answer_to`]). What
//! there is to say of the answer on standard error is a list of [`Sentence`]s, which are said to a
//! [`Voice`]:
//!
//! ```text
//! let answer = answer_to::<_, CompactTracker<_>, _, _>(alloc, &command, opened, &mut sink);
//! answer.say(&mut voice);
//! std::process::exit(answer.status());
//! ```
//!
//! Whoever has a file's octets in memory, as a page in a browser, gets the report of `bgp check
//! --html` by one call ([`report_over`]).
#![tactic(auto)]

mod answer;
mod answering;
mod checking;
mod devices;
mod ends;
mod importing;
mod listing;
mod made_file;
mod mem_voice;
mod reporting;
mod running;
mod saying;
mod sentence;
mod sentences;
mod speaker;
mod voice;
mod words;

pub use answer::{Answer, Destination};
pub use answering::{answer_to, file_of, reads_file, run_over};
pub use ends::{Ends, Output};
pub use mem_voice::MemVoice;
pub use reporting::report_over;
pub use running::run_words;
pub use sentence::Sentence;
pub use voice::Voice;
pub use words::words_status;
