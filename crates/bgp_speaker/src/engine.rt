//! The speaker's core: one end of a session (RFC 4271, 8.2.2) as a function of what it is told.
//!
//! What an input asks for is first done in a draft, and may be refused there; then the routes are
//! settled in one transaction, and the rest is taken over. So a refusal leaves the core as it was.

ghost use Rattle.std.specs.Prelude.{◌≡◌, IfOk, OnErr, max};
ghost use Rattle.bgp_machine.specs.State.{fsm_of, link_at};
ghost use Rattle.bgp_speaker.specs.Answers.{Answers, IsFreshDraft, IsShownBy, state_after};
ghost use Rattle.bgp_speaker.specs.Core.{Announce, Bytes, IsPlain, Withdraw, fresh_core};
ghost use Rattle.bgp_speaker.specs.Core.{without_offers};
ghost use Rattle.bgp_speaker.specs.Drafts.{cue_value, moment_of};
ghost use Rattle.bgp_speaker.specs.Shown.{input_value};

use crate::draft::Draft;
use crate::hearing::{forget_unconnected, hear_all, is_connected};
use crate::input::{Cue, Input};
use crate::pending::Pending;
use crate::saying::News;
use crate::shown::Shown;
use crate::speaker::Speaker;
use bgp_machine::{Fsm, State, received_limit};
use bgp_open::Config;
use bgp_prefix::{Prefix, Seconds};
use bgp_rib::RibIn;
use bgp_wire::Frames;
use std::alloc::{AllocError, Allocator, Global};
use std::collections::BTreeSet;
use std::marker::Model;

/// What a core answers to an input.
#[derive(Drop)]
pub struct Output<A: Allocator = Global> {
    /// The octets to send.
    pub octets: Vec<u8, A>,
    /// The records of its steps in order: of each step the message that moved it, those that are
    /// sent, and the change of state.
    pub records: Vec<Shown<A>, A>,
}

/// One end of a session. It does nothing by itself: it is told what happens, and when, by
/// [`Core::step`].
#[derive(Drop)]
pub struct Core<A: Allocator = Global> {
    alloc: A,
    speaker: Speaker,
    state: State<A>,
    /// The second of the last sent message.
    sent_at: Seconds,
    /// The prefixes that are announced in each session.
    kept: BTreeSet<Prefix, A>,
    /// The second of the last input.
    second: Seconds,
    /// The octets of the connection that no frame is made of yet.
    frames: Frames<A>,
}

impl<A: Allocator> Model for Core<A> {
    ghost use Rattle.std.specs.Prelude.{◌≡◌, [], false};
    ghost use Rattle.bgp_machine.specs.Heard.{received_limit};
    ghost use Rattle.bgp_machine.specs.State.{link_at, state_value};
    ghost use Rattle.bgp_speaker.specs.Core.{CoreState, IsConnected, IsPlain, OffersNothing};

    ghost Value = { CoreState };

    ghost view = { λ c. record {
      speaker = c.speaker;
      moment = record { session = state_value c.state; sent_at = c.sent_at };
      kept = c.kept.keys;
      second = c.second;
      held = c.frames.octets;
    } };

    ghost invariant = { λ c. (c.frames.limit ≡ received_limit c.speaker.config)
        × (c.frames.is_closed ≡ false)
        × ((¬ IsConnected c.state.head) → c.frames.octets ≡ [])
        × OffersNothing c.speaker.config × IsPlain (link_at c.state.head) };
}

/// The later of two seconds.
fn later(last: Seconds, second: Seconds) -> Seconds
    ensures { result ≡ max last second }
{
    last.max(second)
}

impl<A: Allocator + Copy> Core<A> {
    /// Makes a core that nothing happened to. It takes no memory, and offers nothing about routes,
    /// whatever is configured.
    pub fn new(alloc: A, config: &Config, next_hop4: u32, next_hop6: u128) -> Core<A>
        ensures { result ≡ fresh_core (record {
          config = without_offers config.now;
          next_hop4 = next_hop4;
          next_hop6 = next_hop6;
        }) }
    {
        Core {
            alloc,
            speaker: Speaker {
                config: config.without_offers(),
                next_hop4,
                next_hop6,
            },
            state: State::fresh(alloc),
            sent_at: 0,
            kept: BTreeSet::new(alloc),
            second: 0,
            frames: Frames::new(alloc, received_limit(config)),
        }
    }

    /// The name of the session's state.
    pub fn fsm(&self) -> Fsm
        ensures { result ≡ fsm_of self.now.moment.session.head }
    {
        self.state.head.fsm()
    }

    /// The routes that the peer announced, and the families that are disabled.
    pub fn rib(&self) -> &RibIn<A>
        ensures { result.now ≡ self.now.moment.session.routes }
    {
        &self.state.rib
    }

    /// The routes that the peer announced, and the families that are disabled; the core ends.
    pub fn into_rib(self) -> RibIn<A>
        ensures { result ≡ self.moment.session.routes }
    {
        self.state.rib
    }

    /// Takes an input at a second, and answers what is to be sent and the records of the steps. A
    /// second below the last one is taken as the last. Refused for memory, the core is as before,
    /// and may be told the same again.
    pub fn step(&mut self, input: Input<'_>, second: Seconds) -> Result<Output<A>, AllocError>
        ensures ok { IfOk result (λ out. Answers self.old (input_value input.entry) second out
            self.new) }
        ensures err { OnErr result (self.new ≡ self.old) }
    {
        match input {
            Input::Start => self.cue(Cue::Start, second),
            Input::Passive => self.cue(Cue::Passive, second),
            Input::Stop => self.cue(Cue::Stop, second),
            Input::Connected => self.cue(Cue::Connected, second),
            Input::Failed => self.cue(Cue::Failed, second),
            Input::Bytes(octets) => self.hear(octets, second),
            Input::Tick => self.cue(Cue::Tick, second),
            Input::Announce(prefix) => self.announce(prefix, second),
            Input::Withdraw(prefix) => self.withdraw(prefix, second),
        }
    }

    /// A draft in which nothing is done yet.
    fn draft(&self) -> Draft<A>
        ensures { IsFreshDraft self.now result }
    {
        Draft {
            alloc: self.alloc,
            head: self.state.head,
            pending: Pending::new(self.alloc),
            sent_at: self.sent_at,
            octets: Vec::new(self.alloc),
            records: Vec::new(self.alloc),
        }
    }

    /// Takes the row that the state picks by itself, if it picks one.
    fn cue(&mut self, cue: Cue, second: Seconds) -> Result<Output<A>, AllocError>
        ensures ok { IfOk result (λ out. Answers self.old (cue_value cue) second out self.new) }
        ensures err { OnErr result (self.new ≡ self.old) }
    {
        let t = later(self.second, second);
        let mut draft = self.draft();
        draft.take_picked(&self.speaker, t, cue)?;
        self.commit(draft, t)
    }

    /// Hears the octets, where there is a connection.
    fn hear(&mut self, octets: &[u8], second: Seconds) -> Result<Output<A>, AllocError>
        ensures ok { IfOk result (λ out. Answers self.old (Bytes octets.now) second out self.new) }
        ensures err { OnErr result (self.new ≡ self.old) }
    {
        let t = later(self.second, second);
        let mut draft = self.draft();
        if !is_connected(draft.head) {
            return Ok(self.finish(draft, t));
        }
        let mut frames = self.frames.copy()?;
        frames.feed(octets)?;
        hear_all(&mut draft, &self.speaker, &self.kept, t, &mut frames)?;
        let limit = received_limit(&self.speaker.config);
        forget_unconnected(self.alloc, limit, draft.head, &mut frames);
        let output = self.commit(draft, t)?;
        self.frames = frames;
        Ok(output)
    }

    /// Keeps the prefix, and tells the peer.
    fn announce(&mut self, prefix: Prefix, second: Seconds) -> Result<Output<A>, AllocError>
        ensures ok { IfOk result (λ out. Answers self.old (Announce prefix) second out self.new) }
        ensures err { OnErr result (self.new ≡ self.old) }
    {
        let t = later(self.second, second);
        let mut draft = self.draft();
        draft.tell(&self.speaker, t, News::Announced(prefix))?;
        self.kept.insert(prefix)?;
        Ok(self.finish(draft, t))
    }

    /// Drops the prefix, and tells the peer where it was kept.
    fn withdraw(&mut self, prefix: Prefix, second: Seconds) -> Result<Output<A>, AllocError>
        ensures ok { IfOk result (λ out. Answers self.old (Withdraw prefix) second out self.new) }
        ensures err { OnErr result (self.new ≡ self.old) }
    {
        let t = later(self.second, second);
        let mut draft = self.draft();
        if self.kept.contains(&prefix) {
            draft.tell(&self.speaker, t, News::Withdrawn(prefix))?;
        }
        self.kept.remove(&prefix);
        Ok(self.finish(draft, t))
    }

    /// Takes over what a draft did, the routes first, which may be refused.
    fn commit(&mut self, draft: Draft<A>, t: Seconds) -> Result<Output<A>, AllocError>
        requires { IsPlain (link_at draft.head) }
        ensures ok { IfOk result (λ out. (self.new ≡ state_after self.old
            (moment_of self.old.moment.session.routes draft) t) × IsShownBy draft out) }
        ensures err { OnErr result (self.new ≡ self.old) }
    {
        draft.pending.settle(&mut self.state.rib)?;
        Ok(self.finish(draft, t))
    }

    /// Takes over what a draft did but for the routes. With the connection its octets go.
    fn finish(&mut self, draft: Draft<A>, t: Seconds) -> Output<A>
        requires { IsPlain (link_at draft.head) }
        ensures state { self.new ≡ state_after self.old (record {
          session = record { head = draft.head; routes = self.old.moment.session.routes };
          sent_at = draft.sent_at;
        }) t }
        ensures shown { IsShownBy draft result }
    {
        let Draft {
            head,
            sent_at,
            octets,
            records,
            ..
        } = draft;
        let limit = received_limit(&self.speaker.config);
        forget_unconnected(self.alloc, limit, head, &mut self.frames);
        self.state.head = head;
        self.sent_at = sent_at;
        self.second = t;
        Output { octets, records }
    }
}
