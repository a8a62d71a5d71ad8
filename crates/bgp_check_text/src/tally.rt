//! How many ends there are of each verdict, and how many refusals.

ghost use Rattle.std.specs.Prelude.{◌≡◌, ◌+◌, ◌<◌};
ghost use Rattle.bgp_judge.specs.Verdict.{verdict_value};
ghost use Rattle.bgp_text.specs.Lines.{Writes};
ghost use Rattle.bgp_explain.specs.Status.{code_of};
ghost use Rattle.bgp_check.specs.Answered.{answer_value};
ghost use Rattle.bgp_check_text.specs.Tally.{has_verdict, is_empty, is_for_lack, is_incomplete};
ghost use Rattle.bgp_check_text.specs.Tally.{has_trouble, last_text, no_tally, one_more};
ghost use Rattle.bgp_check_text.specs.Tally.{status_of, tally_line, with_end, with_refusal};
ghost use Rattle.bgp_check_text.specs.Tally.{with_unjudged, with_verdict};

use bgp_check::{Answer, NotJudged};
use bgp_explain::Status;
use bgp_judge::Verdict;
use bgp_text::Lines;
use mrt::Sink;
use std::alloc::Allocator;

/// How many ends there are of each verdict, and how many refusals. No count goes beyond the
/// greatest `u64`.
#[derive(Clone, Copy)]
pub struct Tally {
    /// Ends that are a yes.
    pub yes: u64,
    /// Those that are a no.
    pub no: u64,
    /// Those that are unfinished.
    pub unfinished: u64,
    /// Those that aren't judged.
    pub not_judged: u64,
    /// Refusals.
    pub refused: u64,
    /// Something is refused, or of an end that isn't judged what has to be there isn't recorded.
    incomplete: bool,
    /// Memory was refused.
    memory: bool,
    /// A device failed.
    device: bool,
}

/// One more.
fn one_more(count: u64) -> u64
    ensures { result ≡ one_more count }
{
    count.saturating_add(1)
}

/// Whether an end that isn't judged for this could be, if more were recorded of it.
fn is_for_lack(why: NotJudged) -> bool
    ensures { result ≡ is_for_lack why }
{
    match why {
        NotJudged::NothingSent => true,
        NotJudged::ExtendedParameters
        | NotJudged::NoFamily
        | NotJudged::DynamicCapabilities
        | NotJudged::Confederations => false,
    }
}

impl Tally {
    /// Of nothing.
    pub fn new() -> Tally
        ensures { result ≡ no_tally }
    {
        Tally {
            yes: 0,
            no: 0,
            unfinished: 0,
            not_judged: 0,
            refused: 0,
            incomplete: false,
            memory: false,
            device: false,
        }
    }

    /// With an end more that isn't judged. It says whether that is for what isn't recorded.
    pub fn with_unjudged(self, lacks: bool) -> Tally
        ensures { result ≡ with_unjudged self lacks }
    {
        Tally {
            not_judged: one_more(self.not_judged),
            incomplete: self.incomplete || lacks,
            ..self
        }
    }

    /// With an end more, of which this is answered.
    pub fn with_end<A: Allocator>(self, answer: &Answer<A>) -> Tally
        ensures { result ≡ with_end self (answer_value answer.now) }
    {
        match answer {
            Answer::NotJudged(why) => self.with_unjudged(is_for_lack(*why)),
            Answer::Judged(judged) => self.with_verdict(&judged.verdict),
        }
    }

    /// With a verdict more.
    fn with_verdict<A: Allocator>(self, verdict: &Verdict<A>) -> Tally
        ensures { result ≡ with_verdict self (verdict_value verdict.now) }
    {
        match verdict {
            Verdict::Yes(_) => Tally {
                yes: one_more(self.yes),
                ..self
            },
            Verdict::No(_) => Tally {
                no: one_more(self.no),
                ..self
            },
            Verdict::Unfinished => Tally {
                unfinished: one_more(self.unfinished),
                ..self
            },
        }
    }

    /// With a refusal more, of a file or of a part of it, whose exit status by itself is this.
    pub fn with_refusal(self, status: Status) -> Tally
        ensures { result ≡ with_refusal self (code_of status) }
    {
        Tally {
            refused: one_more(self.refused),
            incomplete: true,
            memory: self.memory || status.code() == Status::Memory.code(),
            device: self.device || status.code() == Status::Device.code(),
            ..self
        }
    }

    /// How many ends there are.
    fn ends(&self) -> u128
        ensures { result ≡ self.now.yes + self.now.no + self.now.unfinished + self.now.not_judged }
    {
        u128::from(self.yes)
            + u128::from(self.no)
            + u128::from(self.unfinished)
            + u128::from(self.not_judged)
    }

    /// Whether an end is judged.
    pub fn has_verdict(&self) -> bool
        ensures { result ≡ has_verdict self.now }
    {
        0 < self.yes || 0 < self.no || 0 < self.unfinished
    }

    /// Whether nothing is counted: no end, and no refusal.
    pub fn is_empty(&self) -> bool
        ensures { result ≡ is_empty self.now }
    {
        self.ends() == 0 && self.refused == 0
    }

    /// Whether more could be judged, if more were recorded: something is refused, of some end what
    /// has to be there isn't recorded, or nothing is counted.
    pub fn is_incomplete(&self) -> bool
        ensures { result ≡ is_incomplete self.now }
    {
        self.incomplete || self.is_empty()
    }

    /// The exit status over all ends, the first of 5, 4, 1, 3, 2, 0 for which there is something:
    /// where a device or memory failed, not all was judged; then a no, which nothing told of
    /// another end hides; then a refusal. It is that of a refusal where no end is judged.
    pub fn status(&self) -> Status
        ensures { code_of result ≡ status_of self.now }
    {
        if self.device {
            Status::Device
        } else if self.memory {
            Status::Memory
        } else if 0 < self.no {
            Status::No
        } else if 0 < self.refused {
            Status::Refused
        } else if 0 < self.unfinished {
            Status::Unfinished
        } else if 0 < self.yes {
            Status::Done
        } else {
            Status::Refused
        }
    }

    /// Whether something is told of an end or of the file where what is well is left out: a no, what
    /// is unfinished, a refusal, or that there is nothing.
    pub fn has_trouble(&self) -> bool
        ensures { result ≡ has_trouble self.now }
    {
        0 < self.no || 0 < self.unfinished || 0 < self.refused || self.is_empty()
    }

    /// Puts the last line ([`put`](Tally::put)). Where what is well is left out (`quiet`), it is
    /// left out, too, if it would stand alone.
    pub fn put_last<W: Sink>(&self, lines: &mut Lines<'_, W>, quiet: bool)
        ensures { Writes lines.old lines.new (last_text quiet self.now) }
    {
        if quiet && !self.has_trouble() {
            lines.put(b"");
        } else {
            self.put(lines);
        }
    }

    /// Puts the last line: `ends 2: 2 yes, 0 no, 0 unfinished, 0 not judged; refused 0`.
    pub fn put<W: Sink>(&self, lines: &mut Lines<'_, W>)
        ensures { Writes lines.old lines.new (tally_line self.now) }
    {
        lines.put(b"ends ");
        lines.put_decimal(self.ends());
        lines.put(b": ");
        lines.put_decimal(self.yes);
        lines.put(b" yes, ");
        lines.put_decimal(self.no);
        lines.put(b" no, ");
        lines.put_decimal(self.unfinished);
        lines.put(b" unfinished, ");
        lines.put_decimal(self.not_judged);
        lines.put(b" not judged; refused ");
        lines.put_decimal(self.refused);
        lines.put(b"\n");
    }
}
