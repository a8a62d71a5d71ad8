//! A source whose records are printed as they come.

ghost use Rattle.std.specs.Prelude.{◌≡◌};

use crate::ready::Ready;
use bgp_text::Lines;
use mrt::{Failed, Sink, Source};

/// A source that is lent.
#[derive(Drop)]
pub(crate) struct Lent<'a, R: Source> {
    pub(crate) source: &'a mut R,
}

impl<'a, R: Source> Lent<'a, R> {
    /// Returns a source that is lent.
    pub(crate) fn new(source: &'a mut R) -> Lent<'a, R>
        ensures same { result.source.ghost_name ≡ source.entry.ghost_name }
        ensures now { result.source.now ≡ source.old }
    {
        Lent { source }
    }

    /// Returns the source, as the last call left it.
    pub(crate) fn into_source(self) -> &'a mut R
        ensures { result ≡ self.entry.source }
    {
        self.source
    }
}

impl<R: Source + Ready> Ready for Lent<'_, R> {
    ghost is_ready = { λ a. R.is_ready a.source.now };

    fn is_ready(&self) -> bool {
        self.source.is_ready()
    }
}

impl<R: Source> Source for Lent<'_, R> {
    ghost use Rattle.bgp_tool.specs.Shown.{GivesLent, lent_nothing, lent_joined};

    ghost gives = { λ a b. GivesLent R.gives a.source b.source };

    ghost given_count = { λ a. R.given_count a.source.now };

    ghost failures = { λ a. R.failures a.source.now };

    ghost has_ended = { λ a. R.has_ended a.source.now };

    ghost nothing = { λ a. lent_nothing R.gives a.source (R.nothing a.source.now) };

    ghost joined = { λ a b c xs ys first second.
        lent_joined R.gives R.joined a.source b.source c.source xs ys first second };

    ghost counted = { λ a b xs given. R.counted a.source.now b.source.now xs given.gave };

    ghost below = { λ a. R.below a.source.now };

    fn read(&mut self, buffer: &mut [u8]) -> Result<usize, Failed> {
        self.source.read(buffer)
    }

    fn failures(&self) -> u64 {
        self.source.failures()
    }
}

/// A source, and the text of what it gave. Before a read that may wait, all of the text is handed
/// over: who waits at a pipe sees what came.
#[derive(Drop)]
pub(crate) struct Shown<'a, S, W: Sink> {
    pub(crate) source: S,
    pub(crate) lines: Lines<'a, W>,
}

impl<S: Source + Ready, W: Sink> Source for Shown<'_, S, W> {
    ghost use Rattle.std.specs.Prelude.{◌≡◌, ◌≤◌, ◌<◌, [], length, take, IfOk, OnErr, false};
    ghost use Rattle.mrt.specs.Failures.{failures_after};
    ghost use Rattle.mrt.specs.Source.{ended_after};
    ghost use Rattle.bgp_tool.specs.Shown.{GivesShown, shown_nothing, shown_joined};

    ghost gives = { λ a b. GivesShown S.gives a.source b.source a.lines b.lines };

    ghost given_count = { λ a. S.given_count a.source };

    ghost failures = { λ a. S.failures a.source };

    ghost has_ended = { λ a. S.has_ended a.source };

    ghost nothing = { λ a. shown_nothing S.gives W.nothing a.source (S.nothing a.source) a.lines };

    ghost joined = { λ a b c xs ys first second. shown_joined S.gives S.joined W.joined a.source
        b.source c.source a.lines b.lines c.lines xs ys first second };

    ghost counted = { λ a b xs given. S.counted a.source b.source xs given.gave };

    ghost below = { λ a. S.below a.source };

    fn read(&mut self, buffer: &mut [u8]) -> Result<usize, Failed>
        requires { S.failures self.old.source < u64.MAX }
        ensures bound { IfOk result (λ count. count ≤ length buffer.new) }
        ensures ok { IfOk result (λ count. GivesShown S.gives self.old.source self.new.source
            self.old.lines self.new.lines (take count buffer.new)) }
        ensures err { OnErr result (GivesShown S.gives self.old.source self.new.source
            self.old.lines self.new.lines []) }
        ensures end { S.has_ended self.new.source
            ≡ ended_after (S.has_ended self.old.source) buffer.new result }
        ensures failures { S.failures self.new.source
            ≡ failures_after (S.failures self.old.source) result }

        // Before a read that may wait, nothing of the text is held back.
        ensures shown { S.is_ready self.old.source ≡ false → self.new.lines.held.items ≡ [] }
    {
        if !self.source.is_ready() {
            // A sink that fails is seen after the next record.
            let _ = self.lines.hand_over();
        }
        self.source.read(buffer)
    }

    fn failures(&self) -> u64 {
        self.source.failures()
    }
}
