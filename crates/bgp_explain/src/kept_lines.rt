//! The lines of a reason, which are kept to be put in either form.

ghost use Rattle.std.specs.Prelude.{◌≡◌, ◌<◌, ℕ, List, IfOk, OnErr, OnOk};
ghost use Rattle.bgp_verdict_lines.specs.Lines.{PutsLines};
ghost use Rattle.bgp_explain.specs.Details.{AreDetails};
ghost use Rattle.bgp_explain.specs.KeptLines.{IsOfLines};
ghost use Rattle.bgp_explain.specs.Places.{places_of};
ghost use Rattle.bgp_explain.specs.Text.{CanBePut, IsWhyOf, IsWhyOfWith};
ghost use Rattle.bgp_explain.specs.Why.{IsHeard};

use crate::details::Details;
use crate::explained::Reason;
use crate::places::Places;
use crate::why::{Why, put_lines_with, why_of};
use bgp_open::Config;
use bgp_prefix::Session;
use bgp_update::subcodes_are_sets;
use bgp_verdict_lines::{VerdictForm, VerdictLines};
use bgp_why::Style;
use mrt::{Failed, MemSink, Sink};
use std::alloc::{AllocError, Allocator, Global};
use std::marker::Model;

/// The lines of a reason after that of the first impossible record. A clause sees their text.
#[derive(Drop)]
pub struct KeptLines<A: Allocator = Global> {
    config: Config,
    style: Style,
    session: Session,
    another: Option<u32>,
    reason: Reason<A>,
    why: Why,
    text: Vec<u8, A>,
}

impl<A: Allocator> Model for KeptLines<A> {
    ghost use Rattle.std.specs.Prelude.{ℕ, List};

    ghost Value = { List ℕ };

    ghost use Rattle.bgp_explain.specs.KeptLines.{AreKept};

    ghost view = { λ k. k.text.items };

    ghost invariant = { λ k.
        AreKept k.config k.style k.session k.another k.reason k.why k.text.items };
}

/// Writes the lines of a reason, by what it says that takes no memory.
fn write_lines<W: Sink, A: Allocator + Copy>(
    sink: &mut W,
    alloc: A,
    config: &Config,
    style: &Style,
    session: &Session,
    another: Option<u32>,
    reason: &Reason<A>,
    details: &Details<'_, A>,
    why: &Why,
) -> Result<(), Failed>
    requires failures { W.failures sink.old < u64.MAX }
    requires can { CanBePut session.now reason.now.impossible }
    requires details { AreDetails config.now reason.now details.now }
    ensures { OnOk result ((text : List ℕ) × IsWhyOfWith config.now style.now session.now another
        reason.now why.now text × W.takes sink.old sink.new text) }
{
    let mut lines = VerdictLines::new(VerdictForm::Text, alloc, sink);
    put_lines_with(
        &mut lines, config, style, session, another, reason, details, why,
    );
    let handed_over = lines.hand_over();
    // No effect: it ends the loan of the sink.
    lines.into_sink();
    handed_over
}

/// Returns the lines of a reason as text, by what it says that takes no memory.
fn text_of<A: Allocator + Copy>(
    alloc: A,
    config: &Config,
    style: &Style,
    session: &Session,
    another: Option<u32>,
    reason: &Reason<A>,
    why: &Why,
) -> Result<Vec<u8, A>, AllocError>
    requires { CanBePut session.now reason.now.impossible }
    ensures { IfOk result (λ text. IsWhyOfWith config.now style.now session.now another reason.now
        why.now text.items) }
{
    let details = Details::of(alloc, config, reason)?;
    let mut sink = MemSink::new(alloc);
    match write_lines(
        &mut sink, alloc, config, style, session, another, reason, &details, why,
    ) {
        Ok(()) => Ok(sink.into_octets()),
        Err(_) => Err(AllocError),
    }
}

impl<A: Allocator + Copy> KeptLines<A> {
    /// Keeps the lines of a reason. The records stand at these places, and the impossible one is one
    /// that a capture of this session can hold. If a number is given, the configuration is one with
    /// any other AS number of the peer. Returns `AllocError` if memory runs out.
    pub(crate) fn of(
        alloc: A,
        config: &Config,
        style: &Style,
        session: &Session,
        another: Option<u32>,
        places: Places<'_>,
        reason: Reason<A>,
    ) -> Result<KeptLines<A>, AllocError>
        requires can { CanBePut session.now reason.impossible }
        requires heard { IsHeard config.now reason.told reason.last_message.items }
        ensures { IfOk result (IsWhyOf config.now style.now session.now another
            (places_of places.entry) reason) }
    {
        subcodes_are_sets();
        let why = why_of(config, places, &reason);
        let text = text_of(alloc, config, style, session, another, &reason, &why)?;
        Ok(KeptLines {
            config: *config,
            style: *style,
            session: *session,
            another,
            reason,
            why,
            text,
        })
    }

    /// Returns the lines as text.
    pub fn text(&self) -> &[u8]
        ensures { result.now ≡ self.now }
    {
        self.text.as_slice()
    }

    /// Puts the lines in the form of what they are put into. It takes memory: if that runs out, it
    /// returns `AllocError`, and puts nothing.
    pub fn put<W: Sink>(
        &self,
        lines: &mut VerdictLines<'_, A, W>,
        alloc: A,
    ) -> Result<(), AllocError>
        ensures ok { OnOk result (PutsLines lines.old lines.new self.now) }
        ensures err { OnErr result (IsOfLines self.now) }
    {
        let details = Details::of(alloc, &self.config, &self.reason)?;
        put_lines_with(
            lines,
            &self.config,
            &self.style,
            &self.session,
            self.another,
            &self.reason,
            &details,
            &self.why,
        );
        Ok(())
    }
}
