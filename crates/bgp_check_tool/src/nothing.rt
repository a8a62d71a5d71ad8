//! What is told where no end is judged.

ghost use Rattle.std.specs.Prelude.{◌≡◌};
ghost use Rattle.bgp_check_lines.specs.Lines.{PutsLines};
ghost use Rattle.bgp_check_tool.specs.Checking.{nothing_text};

use bgp_check_lines::{CheckLines, Tally, put_nothing_at};
use mrt::Sink;
use std::alloc::Allocator;
use std::fmt;

/// That no end in a recording is judged.
#[derive(Clone, Copy, Debug)]
pub struct NothingJudged {
    /// The port whose connections were looked for.
    pub port: u16,
    /// Whether more could be judged, if more were recorded.
    pub is_incomplete: bool,
}

impl fmt::Display for NothingJudged {
    fn fmt<W: fmt::Write>(&self, f: &mut fmt::Formatter<W>) -> fmt::Result {
        if !self.is_incomplete {
            return f.write_str(
                "no end is judged, as each line says why: another recording of such a session \
                 doesn't help",
            );
        }
        write!(
            f,
            "no end is judged, as each line says why: record all packets of both directions from \
             before the session begins, as tcpdump -i any -s 0 -w FILE 'tcp port {}' does",
            self.port
        )
    }
}

/// That there is no connection at this port, where nothing was told.
pub(crate) fn put_nothing<A: Allocator + Copy, W: Sink>(
    lines: &mut CheckLines<'_, A, W>,
    tally: Tally,
    port: u16,
)
    ensures { PutsLines lines.old lines.new (nothing_text port tally) }
{
    if tally.is_empty() {
        put_nothing_at(lines, port);
    }
}
