//! What a core has done on an input so far.

ghost use Rattle.std.specs.Prelude.{◌≡◌, ◌≤◌, ◌∷◌, [], List, Option, OnOk, length};
ghost use Rattle.bgp_prefix.specs.Shown.{Received, Sent};
ghost use Rattle.bgp_machine.specs.declared.fsm.Fsm.{Fsm as TheFsm};
ghost use Rattle.bgp_machine.specs.declared.want.Want.{Want as TheWant};
ghost use Rattle.bgp_machine.specs.declared.rows.HiddenRow.TheVariants.{Announces};
ghost use Rattle.bgp_machine.specs.Lists.{Each};
ghost use Rattle.bgp_machine.specs.Listed.{IsStep, changes_of};
ghost use Rattle.bgp_machine.specs.Rows.{HiddenShown, NoStep};
ghost use Rattle.bgp_machine.specs.State.{Turn, link_at};
ghost use Rattle.bgp_machine.specs.Want.{wants_of};
ghost use Rattle.bgp_rib.specs.Routes.{Routes as TheRoutes};
ghost use Rattle.bgp_wire.specs.Header.{header_of, type_of};
ghost use Rattle.bgp_speaker.specs.Choice.{change_records};
ghost use Rattle.bgp_speaker.specs.Core.{IsConnected, IsPlain, OffersNothing};
ghost use Rattle.bgp_speaker.specs.Drafts.{CanBeSaid, CanBeTold, DoesGreet, DoesHear, DoesOn};
ghost use Rattle.bgp_speaker.specs.Drafts.{DoesOwn, DoesPicked, DoesTell, IsSaying, IsSayingOne};
ghost use Rattle.bgp_speaker.specs.Drafts.{Performs, Shows, cue_value, news_changes};

use crate::choosing::step_on;
use crate::input::Cue;
use crate::pending::Pending;
use crate::picking::picked;
use crate::saying::{News, message};
use crate::shown::Shown;
use crate::speaker::Speaker;
use bgp_machine::{
    Fsm, Head, HiddenRow, Step, Want, Wants, each_owed_want_can_be_met, hidden_step,
};
use bgp_prefix::{Prefix, Seconds};
use bgp_update::Changes;
use std::alloc::{AllocError, Allocator, Global};
use std::collections::BTreeSet;

/// What a core has done on an input so far.
#[derive(Drop)]
pub(crate) struct Draft<A: Allocator = Global> {
    pub(crate) alloc: A,
    pub(crate) head: Head,
    pub(crate) pending: Pending<A>,
    /// The second of the last sent message.
    pub(crate) sent_at: Seconds,
    /// The octets to send.
    pub(crate) octets: Vec<u8, A>,
    pub(crate) records: Vec<Shown<A>, A>,
}

impl<A: Allocator + Copy> Draft<A> {
    /// Sends a message.
    fn send(&mut self, t: Seconds, message: Vec<u8, A>) -> Result<(), AllocError>
        ensures shows { OnOk result (Shows self.old self.new (Sent t message.items ∷ [])) }
        ensures sent_at { OnOk result (self.new.sent_at ≡ t) }
        ensures head { self.new.head ≡ self.old.head }
        ensures pending { self.new.pending ≡ self.old.pending }
    {
        self.octets.extend_from_slice(message.as_slice())?;
        self.records.push(Shown::Out(t, message))?;
        self.sent_at = t;
        Ok(())
    }

    /// Sends one message that is wanted.
    fn say_one(
        &mut self,
        speaker: &Speaker,
        t: Seconds,
        kind: u8,
        news: &Option<News>,
        want: Want,
    ) -> Result<(), AllocError>
        requires { CanBeSaid (link_at self.old.head) news.now want }
        ensures said { OnOk result (IsSayingOne speaker.now (news_changes speaker.now
            (link_at self.old.head) news.now) t kind want self.old self.new) }
        ensures head { self.new.head ≡ self.old.head }
        ensures pending { self.new.pending ≡ self.old.pending }
    {
        let alloc = self.alloc;
        let link = self.head.link();
        let octets = message(alloc, speaker, link, kind, news, want)?;
        self.send(t, octets)
    }

    /// Sends what is wanted.
    fn say(
        &mut self,
        speaker: &Speaker,
        t: Seconds,
        kind: u8,
        news: &Option<News>,
        wants: Wants,
    ) -> Result<(), AllocError>
        requires { Each (CanBeSaid (link_at self.old.head) news.now) (wants_of wants) }
        ensures said { OnOk result (IsSaying speaker.now (news_changes speaker.now
            (link_at self.old.head) news.now) t kind (wants_of wants) self.old self.new) }
        ensures head { self.new.head ≡ self.old.head }
        ensures pending { self.new.pending ≡ self.old.pending }
    {
        match wants {
            Wants::Nothing => Ok(()),
            Wants::One(want) => self.say_one(speaker, t, kind, news, want),
            Wants::Two(first, second) => {
                self.say_one(speaker, t, kind, news, first)?;
                self.say_one(speaker, t, kind, news, second)
            }
        }
    }

    /// Notes a change of state.
    fn note(&mut self, t: Seconds, change: Option<(Fsm, Fsm)>) -> Result<(), AllocError>
        ensures shows { OnOk result (Shows self.old self.new (change_records t change)) }
        ensures head { self.new.head ≡ self.old.head }
        ensures pending { self.new.pending ≡ self.old.pending }
        ensures sent_at { self.new.sent_at ≡ self.old.sent_at }
    {
        if let Some((old, new)) = change {
            self.records
                .push(Shown::Change(t, old.number(), new.number()))?;
        }
        Ok(())
    }

    /// Takes a step, whose message has these changes.
    pub(crate) fn perform(
        &mut self,
        speaker: &Speaker,
        t: Seconds,
        kind: u8,
        news: &Option<News>,
        step: Step,
        changes: Option<Changes<A>>,
    ) -> Result<(), AllocError>
        requires { Each (CanBeSaid (link_at self.old.head) news.now) (wants_of step.wants) }
        ensures { (routes : TheRoutes) (wants : List TheWant) (change : Option (TheFsm × TheFsm))
            (turn : Turn) → IsStep (changes_of changes) step wants change turn
            → OnOk result (Performs routes speaker.now (news_changes speaker.now
            (link_at self.old.head) news.now) t kind wants change turn self.old self.new) }
    {
        self.say(speaker, t, kind, news, step.wants)?;
        self.note(t, step.change)?;
        self.pending.note(step.after.routes, changes)?;
        self.head = step.after.head;
        Ok(())
    }

    /// Takes a row by itself, which may be taken now.
    pub(crate) fn act(
        &mut self,
        speaker: &Speaker,
        t: Seconds,
        row: HiddenRow,
        news: &Option<News>,
    ) -> Result<(), AllocError>
        requires taken { ¬ NoStep (HiddenShown speaker.now.config self.old.head t row) }
        requires told { row ≡ Announces → CanBeTold (link_at self.old.head) news.now }
        ensures { (routes : TheRoutes) → OnOk result (DoesOwn routes speaker.now
            (news_changes speaker.now (link_at self.old.head) news.now) t row self.old self.new) }
    {
        let Some(step) = hidden_step(&speaker.config, self.head, t, row) else {
            unreachable!();
        };
        self.perform(speaker, t, 0, news, step, None)
    }

    /// Takes the row that the state picks by itself on a cue, if it picks one.
    pub(crate) fn take_picked(
        &mut self,
        speaker: &Speaker,
        t: Seconds,
        cue: Cue,
    ) -> Result<(), AllocError>
        ensures { (routes : TheRoutes)
            → OnOk result (DoesPicked routes speaker.now t (cue_value cue) self.old self.new) }
    {
        let Some(row) = picked(self.head, cue, self.sent_at, t) else {
            return Ok(());
        };
        let news = None;
        self.act(speaker, t, row, &news)
    }

    /// Takes the step that is chosen about a message of this Type.
    pub(crate) fn take_on(
        &mut self,
        speaker: &Speaker,
        t: Seconds,
        kind: u8,
        octets: &[u8],
    ) -> Result<(), AllocError>
        requires connected { IsConnected self.old.head }
        requires long { 19 ≤ length octets.now }
        requires kind { kind ≡ type_of (header_of octets.now) }
        ensures { (routes : TheRoutes)
            → OnOk result (DoesOn routes speaker.now t octets.now self.old self.new) }
    {
        each_owed_want_can_be_met();
        let alloc = self.alloc;
        let chosen = step_on(alloc, speaker, self.head, t, octets)?;
        self.note_heard(t, octets)?;
        let news = None;
        self.perform(speaker, t, kind, &news, chosen.step, chosen.changes)
    }

    /// Notes a message that was received.
    fn note_heard(&mut self, t: Seconds, octets: &[u8]) -> Result<(), AllocError>
        ensures shows { OnOk result (Shows self.old self.new (Received t octets.now ∷ [])) }
        ensures head { self.new.head ≡ self.old.head }
        ensures pending { self.new.pending ≡ self.old.pending }
        ensures sent_at { self.new.sent_at ≡ self.old.sent_at }
    {
        let message = Vec::from_slice(self.alloc, octets)?;
        self.records.push(Shown::In(t, message))?;
        Ok(())
    }

    /// Tells the peer of a prefix in Established, where its family is in use.
    pub(crate) fn tell(
        &mut self,
        speaker: &Speaker,
        t: Seconds,
        told: News,
    ) -> Result<(), AllocError>
        requires { IsPlain (link_at self.old.head) }
        ensures { (routes : TheRoutes)
            → OnOk result (DoesTell routes speaker.now t told self.old self.new) }
    {
        let Head::Established(link, _) = self.head else {
            return Ok(());
        };
        if !link.families.contains(told.prefix().family()) {
            return Ok(());
        }
        let news = Some(told);
        self.act(speaker, t, HiddenRow::Announces, &news)
    }

    /// Announces the kept prefixes in use, where Established is entered.
    fn greet(
        &mut self,
        speaker: &Speaker,
        kept: &BTreeSet<Prefix, A>,
        t: Seconds,
        before: Head,
    ) -> Result<(), AllocError>
        requires { IsPlain (link_at self.old.head) }
        ensures { (routes : TheRoutes) → OnOk result (DoesGreet routes speaker.now kept.now.keys t
            before self.old self.new) }
    {
        let Head::OpenConfirm(_, _) = before else {
            return Ok(());
        };
        let Head::Established(_, _) = self.head else {
            return Ok(());
        };
        for prefix in kept {
            self.tell(speaker, t, News::Announced(*prefix))?;
        }
        Ok(())
    }

    /// Hears a message of this Type.
    pub(crate) fn hear(
        &mut self,
        speaker: &Speaker,
        kept: &BTreeSet<Prefix, A>,
        t: Seconds,
        kind: u8,
        octets: &[u8],
    ) -> Result<(), AllocError>
        requires connected { IsConnected self.old.head }
        requires long { 19 ≤ length octets.now }
        requires kind { kind ≡ type_of (header_of octets.now) }
        requires offers { OffersNothing speaker.now.config }
        requires plain { IsPlain (link_at self.old.head) }
        ensures { (routes : TheRoutes) → OnOk result (DoesHear routes speaker.now kept.now.keys t
            octets.now self.old self.new) }
    {
        let before = self.head;
        self.take_on(speaker, t, kind, octets)?;
        self.greet(speaker, kept, t, before)
    }
}
