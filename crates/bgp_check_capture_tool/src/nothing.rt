//! What is told where no end is judged.

use std::fmt;

/// That no end in a capture is judged.
#[derive(Clone, Copy, Debug)]
pub struct NothingJudged {
    /// Whether more could be judged, if more were recorded.
    pub is_incomplete: bool,
}

impl fmt::Display for NothingJudged {
    fn fmt<W: fmt::Write>(&self, f: &mut fmt::Formatter<W>) -> fmt::Result {
        if !self.is_incomplete {
            return f.write_str(
                "no end is judged, as each line says why: another recording of such a session \
                 doesn't help",
            );
        }
        f.write_str(
            "no end is judged, as each line says why: dumps of daemons lack what was sent; record \
             packets, as tcpdump -i any -s 0 -w FILE 'tcp port 179' does",
        )
    }
}
