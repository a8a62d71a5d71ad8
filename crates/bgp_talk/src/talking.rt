//! A talk: what the core sends goes to a wire, what comes on the wire goes to the core, and what it
//! shows to a capture.

ghost use Rattle.std.specs.Prelude.{◌≡◌, ◌⊎◌, ℕ, ◌<◌, ◌≤◌, ◌+◌, List, [], ◌∷◌, OnOk, OnErr, IfOk};
ghost use Rattle.std.specs.Prelude.{IfErr, IsTrue, IsFalse, Bool, map};
ghost use Rattle.std.specs.List.{AllByRecursion};
ghost use Rattle.bgp_prefix.specs.Address.{family_of};
ghost use Rattle.bgp_prefix.specs.Shown.{ShownRecord};
ghost use Rattle.bgp_speaker.specs.Choosing.{Chooses, sent_in};
ghost use Rattle.bgp_speaker.specs.Core.{CoreState, InputValue, Failed, Tick, fresh_core};
ghost use Rattle.bgp_speaker.specs.Core.{without_offers};
ghost use Rattle.bgp_speaker.specs.Shown.{input_value, shown_value};
ghost use Rattle.bgp_talk.specs.Account.{Telling, connection_after, first_owed};
ghost use Rattle.bgp_talk.specs.CoreFacts.{IsQuiet, IsShort, is_idle, is_resting};
ghost use Rattle.bgp_talk.specs.Talk.{Cut, Entered, Sends, Went};
ghost use Rattle.bgp_talk.specs.Talk.{capture_of, closing_owed, faults_after, in_hand};
ghost use Rattle.bgp_talk.specs.declared.wire.Connection.{Connection};
ghost use Rattle.bgp_talk.specs.declared.wire.Connection.TheVariants.{NotAsked, Stands};
ghost use Rattle.mrt.specs.Failures.{failures_after};
ghost use Rattle.mrt.specs.Sink.{TakesBeginning};

use crate::fault::SpeakFault;
use crate::laws::each_record_is_short;
use crate::wire::{ReadAnswer, Wire};
use bgp_machine::Fsm;
use bgp_open::Config;
use bgp_prefix::Prefix;
use bgp_rib::RibIn;
use bgp_speaker::{Core, Input, Shown};
use mrt::{Sink, write_record};
use std::alloc::{AllocError, Allocator};

/// The same input, out of a loan of it.
pub fn again<'a>(input: &Input<'a>) -> Input<'a>
    ensures { input_value result ≡ input_value input.now }
{
    match input {
        Input::Start => Input::Start,
        Input::Passive => Input::Passive,
        Input::Stop => Input::Stop,
        Input::Connected => Input::Connected,
        Input::Failed => Input::Failed,
        Input::Bytes(octets) => Input::Bytes(octets),
        Input::Tick => Input::Tick,
        Input::Announce(prefix) => Input::Announce(*prefix),
        Input::Withdraw(prefix) => Input::Withdraw(*prefix),
    }
}

/// Writes records to a capture of the configured session, as [`mrt::write_record`] does, one after
/// another. After a failure a beginning of their text was written.
pub fn write_records<A: Allocator, C: Sink>(
    config: &Config,
    sink: &mut C,
    records: &[Shown<A>],
) -> Result<(), mrt::Failed>
    requires families { family_of config.now.parts.session.peer
        ≡ family_of config.now.parts.session.local }
    requires failures { C.failures sink.old < u64.MAX }
    requires short { AllByRecursion (IsShort config.now) (map shown_value records.now) }
    ensures ok { OnOk result (C.takes sink.old sink.new
        (capture_of config.now (map shown_value records.now))) }
    ensures err { OnErr result (TakesBeginning C.takes sink.old sink.new
        (capture_of config.now (map shown_value records.now))) }
    ensures failures { C.failures sink.new ≡ failures_after (C.failures sink.old) result }
{
    let mut rest = records;
    while let Some((first, behind)) = rest.split_first() {
        if write_record(
            sink,
            &config.parts.session,
            config.parts.peer_as,
            config.parts.local_as,
            &first.record(),
        )
        .is_err()
        {
            return Err(mrt::Failed);
        }
        rest = behind;
    }
    Ok(())
}

/// Writes octets, in as many writes as the wire needs, and answers whether it took all.
fn send<W: Wire>(wire: &mut W, octets: &[u8]) -> bool
    requires stands { W.connection wire.old ≡ Stands }
    requires failures { W.failures wire.old < u64.MAX }
    ensures told { (account : List Telling) × W.tells wire.old wire.new account
        × Sends account octets.now result }
    ensures stands { W.connection wire.new ≡ Stands }
    ensures failures { W.failures wire.new ≤ W.failures wire.old + 1 }
    ensures calm { IsTrue result → W.failures wire.new ≡ W.failures wire.old }
{
    let mut rest = octets;
    while !rest.is_empty() {
        match wire.write(rest) {
            Ok(0) => return false,
            Err(_) => return false,
            Ok(count) => rest = rest.split_at(count).1,
        }
    }
    true
}

/// A core that talks, and what it is configured to do. The core offers nothing about routes.
#[derive(Drop)]
pub(crate) struct Talk<A: Allocator> {
    config: Config,
    core: Core<A>,
    pub(crate) ghost families: { family_of config.parts.session.peer
        ≡ family_of config.parts.session.local },
    pub(crate) ghost configured: { core.speaker.config ≡ without_offers config },
}

impl<A: Allocator + Copy> Talk<A> {
    /// One that nothing happened to.
    pub(crate) fn new(alloc: A, config: &Config, next_hop4: u32, next_hop6: u128) -> Talk<A>
        requires { family_of config.now.parts.session.peer
            ≡ family_of config.now.parts.session.local }
        ensures config { result.config ≡ config.now }
        ensures core { result.core ≡ fresh_core (record {
          config = without_offers config.now;
          next_hop4 = next_hop4;
          next_hop6 = next_hop6;
        }) }
    {
        Talk {
            config: *config,
            core: Core::new(alloc, config, next_hop4, next_hop6),
        }
    }

    /// A copy of the routes that the peer announced, and of the families that are disabled.
    pub(crate) fn routes(&self) -> Result<RibIn<A>, AllocError>
        ensures { IfOk result (λ rib. rib ≡ self.now.core.moment.session.routes) }
    {
        self.core.rib().copy()
    }

    /// Whether the core is Idle.
    fn is_idle(&self) -> bool
        ensures { result ≡ is_idle self.now.core }
    {
        match self.core.fsm() {
            Fsm::Idle => true,
            Fsm::Connect => false,
            Fsm::Active => false,
            Fsm::OpenSent => false,
            Fsm::OpenConfirm => false,
            Fsm::Established => false,
        }
    }

    /// Whether the core is Idle or Active.
    fn rests(&self) -> bool
        ensures { result ≡ is_resting self.now.core }
    {
        match self.core.fsm() {
            Fsm::Idle => true,
            Fsm::Connect => false,
            Fsm::Active => true,
            Fsm::OpenSent => false,
            Fsm::OpenConfirm => false,
            Fsm::Established => false,
        }
    }

    /// Hands in an input at the wire's second and writes its records. Answers the octets to send.
    fn enter<W: Wire, C: Sink>(
        &mut self,
        wire: &mut W,
        sink: &mut C,
        input: &Input<'_>,
    ) -> Result<Vec<u8, A>, SpeakFault>
        requires failures { C.failures sink.old < u64.MAX }
        ensures ok { IfOk result (λ octets. Entered W.tells C.takes (capture_of self.old.config)
            (input_value input.now) self.old.core wire.old sink.old
            octets.items self.new.core wire.new sink.new) }
        ensures err { IfErr result (λ fault.
            (owed : List InputValue) (connection : Connection) (left : ℕ)
            → Cut W.tells C.takes (capture_of self.old.config) fault
            (in_hand (input_value input.now ∷ owed) [] connection left self.old.core)
            wire.old sink.old wire.new sink.new) }
        ensures config { self.new.config ≡ self.old.config }
        ensures connection { W.connection wire.new ≡ W.connection wire.old }
        ensures wire_failures { W.failures wire.new ≡ W.failures wire.old }
        ensures sink_failures { C.failures sink.new ≡ faults_after (C.failures sink.old) result }
    {
        each_record_is_short();
        let second = wire.now();
        let Ok(output) = self.core.step(again(input), second) else {
            return Err(SpeakFault::Memory);
        };
        if write_records(&self.config, sink, output.records.as_slice()).is_err() {
            return Err(SpeakFault::Capture);
        }
        Ok(output.octets)
    }

    /// Hands in an input that sends nothing.
    fn enter_silent<W: Wire, C: Sink>(
        &mut self,
        wire: &mut W,
        sink: &mut C,
        input: &Input<'_>,
    ) -> Result<(), SpeakFault>
        requires failures { C.failures sink.old < u64.MAX }
        requires silent { (b : CoreState) (second : ℕ) (records : List ShownRecord)
            → Chooses self.old.core (input_value input.now) second records b
            → sent_in records ≡ [] }
        ensures ok { OnOk result ((owed : List InputValue) (connection : Connection) (left : ℕ)
            → Went W.tells C.takes (capture_of self.old.config)
            (in_hand (input_value input.now ∷ owed) [] connection left self.old.core)
            wire.old sink.old
            (in_hand owed [] connection left self.new.core) wire.new sink.new) }
        ensures chosen { OnOk result ((second : ℕ) × (records : List ShownRecord)
            × Chooses self.old.core (input_value input.now) second records self.new.core) }
        ensures err { IfErr result (λ fault.
            (owed : List InputValue) (connection : Connection) (left : ℕ)
            → Cut W.tells C.takes (capture_of self.old.config) fault
            (in_hand (input_value input.now ∷ owed) [] connection left self.old.core)
            wire.old sink.old wire.new sink.new) }
        ensures config { self.new.config ≡ self.old.config }
        ensures connection { W.connection wire.new ≡ W.connection wire.old }
        ensures wire_failures { W.failures wire.new ≡ W.failures wire.old }
        ensures sink_failures { C.failures sink.new ≡ faults_after (C.failures sink.old) result }
    {
        let _octets = self.enter(wire, sink, input)?;
        Ok(())
    }

    /// Hands in an input, writes its records and then its octets to the wire; where the wire
    /// doesn't take them all, hands in a failure.
    fn hand_in<W: Wire, C: Sink>(
        &mut self,
        wire: &mut W,
        sink: &mut C,
        input: &Input<'_>,
    ) -> Result<(), SpeakFault>
        requires failures { C.failures sink.old < u64.MAX }
        requires stands { W.connection wire.old ≡ Stands }
        requires wire_failures { W.failures wire.old < u64.MAX }
        ensures ok { OnOk result ((owed : List InputValue) (left : ℕ)
            → Went W.tells C.takes (capture_of self.old.config)
            (in_hand (input_value input.now ∷ owed) [] Stands left self.old.core)
            wire.old sink.old
            (in_hand owed [] Stands left self.new.core) wire.new sink.new) }
        ensures err { IfErr result (λ fault. (owed : List InputValue) (left : ℕ)
            → Cut W.tells C.takes (capture_of self.old.config) fault
            (in_hand (input_value input.now ∷ owed) [] Stands left self.old.core)
            wire.old sink.old wire.new sink.new) }
        ensures config { self.new.config ≡ self.old.config }
        ensures stands { W.connection wire.new ≡ Stands }
        ensures wire_failures { W.failures wire.new ≤ W.failures wire.old + 1 }
        ensures steady { OnOk result (IsTrue (is_resting self.new.core)
            ⊎ (W.failures wire.new ≡ W.failures wire.old)) }
        ensures fails { input_value input.now ≡ Failed
            → OnOk result (IsTrue (is_resting self.new.core)) }
        ensures quiet { IsQuiet (input_value input.now) → IsTrue (is_resting self.old.core)
            → OnOk result (IsTrue (is_resting self.new.core)) }
        ensures sink_failures { C.failures sink.new ≡ faults_after (C.failures sink.old) result }
    {
        let octets = self.enter(wire, sink, input)?;
        if send(wire, octets.as_slice()) {
            return Ok(());
        }
        self.enter_silent(wire, sink, &Input::Failed)
    }

    /// Reads the wire once, and hands in what came or that the connection failed.
    fn read_once<W: Wire, C: Sink>(&mut self, wire: &mut W, sink: &mut C) -> Result<(), SpeakFault>
        requires failures { C.failures sink.old < u64.MAX }
        requires stands { W.connection wire.old ≡ Stands }
        requires wire_failures { W.failures wire.old + 1 < u64.MAX }
        requires awake { IsFalse (is_resting self.old.core) }
        ensures ok { OnOk result ((left : ℕ)
            → Went W.tells C.takes (capture_of self.old.config)
            (in_hand [] [] Stands (left + 1) self.old.core) wire.old sink.old
            (in_hand (Tick ∷ []) [] Stands left self.new.core) wire.new sink.new) }
        ensures err { IfErr result (λ fault. (left : ℕ)
            → Cut W.tells C.takes (capture_of self.old.config) fault
            (in_hand [] [] Stands (left + 1) self.old.core)
            wire.old sink.old wire.new sink.new) }
        ensures config { self.new.config ≡ self.old.config }
        ensures stands { W.connection wire.new ≡ Stands }
        ensures wire_failures { W.failures wire.new ≤ W.failures wire.old + 2 }
        ensures steady { OnOk result (IsTrue (is_resting self.new.core)
            ⊎ (W.failures wire.new ≡ W.failures wire.old)) }
        ensures sink_failures { C.failures sink.new ≡ faults_after (C.failures sink.old) result }
    {
        let mut buffer = [0; 4096];
        match wire.read(&mut buffer) {
            ReadAnswer::Bytes(count) => {
                self.hand_in(wire, sink, &Input::Bytes(&buffer[..count]))
            }
            ReadAnswer::Nothing => Ok(()),
            ReadAnswer::Closed => self.hand_in(wire, sink, &Input::Failed),
            ReadAnswer::Failed => self.hand_in(wire, sink, &Input::Failed),
        }
    }

    /// Takes a turn: reads the wire once, hands in what came, and a tick.
    fn take_turn<W: Wire, C: Sink>(&mut self, wire: &mut W, sink: &mut C) -> Result<(), SpeakFault>
        requires failures { C.failures sink.old < u64.MAX }
        requires stands { W.connection wire.old ≡ Stands }
        requires wire_failures { W.failures wire.old + 2 < u64.MAX }
        requires awake { IsFalse (is_resting self.old.core) }
        ensures ok { OnOk result ((left : ℕ)
            → Went W.tells C.takes (capture_of self.old.config)
            (in_hand [] [] Stands (left + 1) self.old.core) wire.old sink.old
            (in_hand [] [] Stands left self.new.core) wire.new sink.new) }
        ensures err { IfErr result (λ fault. (left : ℕ)
            → Cut W.tells C.takes (capture_of self.old.config) fault
            (in_hand [] [] Stands (left + 1) self.old.core)
            wire.old sink.old wire.new sink.new) }
        ensures config { self.new.config ≡ self.old.config }
        ensures stands { W.connection wire.new ≡ Stands }
        ensures wire_failures { W.failures wire.new ≤ W.failures wire.old + 3 }
        ensures steady { OnOk result (IsTrue (is_resting self.new.core)
            ⊎ (W.failures wire.new ≡ W.failures wire.old)) }
        ensures sink_failures { C.failures sink.new ≡ faults_after (C.failures sink.old) result }
    {
        self.read_once(wire, sink)?;
        self.hand_in(wire, sink, &Input::Tick)
    }

    /// Takes turns until the core rests, at most so many, and answers how many are left.
    fn take_turns<W: Wire, C: Sink>(
        &mut self,
        wire: &mut W,
        sink: &mut C,
        turns: u64,
    ) -> Result<u64, SpeakFault>
        requires failures { C.failures sink.old < u64.MAX }
        requires stands { W.connection wire.old ≡ Stands }
        requires wire_failures { W.failures wire.old + 3 < u64.MAX }
        ensures ok { IfOk result (λ left. Went W.tells C.takes (capture_of self.old.config)
            (in_hand [] [] Stands turns self.old.core) wire.old sink.old
            (in_hand [] [] Stands left self.new.core) wire.new sink.new) }
        ensures most { IfOk result (λ left. left ≤ turns) }
        ensures ends { IfOk result (λ left. IsTrue (is_resting self.new.core) ⊎ (left ≡ 0)) }
        ensures err { IfErr result (λ fault. Cut W.tells C.takes (capture_of self.old.config) fault
            (in_hand [] [] Stands turns self.old.core)
            wire.old sink.old wire.new sink.new) }
        ensures config { self.new.config ≡ self.old.config }
        ensures stands { W.connection wire.new ≡ Stands }
        ensures wire_failures { W.failures wire.new ≤ W.failures wire.old + 3 }
        ensures sink_failures { C.failures sink.new ≡ faults_after (C.failures sink.old) result }
    {
        let mut left = turns;
        while left > 0 {
            if self.rests() {
                return Ok(left);
            }
            self.take_turn(wire, sink)?;
            left -= 1;
        }
        Ok(left)
    }

    /// Asks the wire to connect, and hands in its answer.
    fn open<W: Wire, C: Sink>(&mut self, wire: &mut W, sink: &mut C) -> Result<(), SpeakFault>
        requires failures { C.failures sink.old < u64.MAX }
        requires fresh { W.connection wire.old ≡ NotAsked }
        requires wire_failures { W.failures wire.old + 1 < u64.MAX }
        ensures ok { OnOk result ((left : ℕ)
            → Went W.tells C.takes (capture_of self.old.config)
            (in_hand [] [] NotAsked left self.old.core) wire.old sink.old
            (in_hand [] [] (W.connection wire.new) left self.new.core) wire.new sink.new) }
        ensures err { IfErr result (λ fault. (left : ℕ)
            → Cut W.tells C.takes (capture_of self.old.config) fault
            (in_hand [] [] NotAsked left self.old.core)
            wire.old sink.old wire.new sink.new) }
        ensures config { self.new.config ≡ self.old.config }
        ensures asked { (answer : Bool) × (W.connection wire.new ≡ connection_after answer) }
        ensures ready { OnOk result (IsTrue (is_resting self.new.core)
            ⊎ (W.connection wire.new ≡ Stands)) }
        ensures wire_failures { W.failures wire.new ≤ W.failures wire.old + 1 }
        ensures sink_failures { C.failures sink.new ≡ faults_after (C.failures sink.old) result }
    {
        match wire.connect() {
            Ok(()) => self.hand_in(wire, sink, &Input::Connected),
            Err(_) => self.enter_silent(wire, sink, &Input::Failed),
        }
    }

    /// Hands in an Announce for each prefix.
    fn introduce<W: Wire, C: Sink>(
        &mut self,
        wire: &mut W,
        sink: &mut C,
        own: &[Prefix],
    ) -> Result<(), SpeakFault>
        requires failures { C.failures sink.old < u64.MAX }
        requires idle { IsTrue (is_idle self.old.core) }
        ensures ok { OnOk result ((passive : Bool) (connection : Connection) (left : ℕ)
            → Went W.tells C.takes (capture_of self.old.config)
            (in_hand (first_owed own.now passive) [] connection left self.old.core)
            wire.old sink.old
            (in_hand (first_owed [] passive) [] connection left self.new.core)
            wire.new sink.new) }
        ensures err { IfErr result (λ fault.
            (passive : Bool) (connection : Connection) (left : ℕ)
            → Cut W.tells C.takes (capture_of self.old.config) fault
            (in_hand (first_owed own.now passive) [] connection left self.old.core)
            wire.old sink.old wire.new sink.new) }
        ensures config { self.new.config ≡ self.old.config }
        ensures idle { OnOk result (IsTrue (is_idle self.new.core)) }
        ensures connection { W.connection wire.new ≡ W.connection wire.old }
        ensures wire_failures { W.failures wire.new ≡ W.failures wire.old }
        ensures sink_failures { C.failures sink.new ≡ faults_after (C.failures sink.old) result }
    {
        let mut rest = own;
        while let Some((first, behind)) = rest.split_first() {
            self.enter_silent(wire, sink, &Input::Announce(*first))?;
            rest = behind;
        }
        Ok(())
    }

    /// Hands in an Announce for each prefix, and the start.
    fn begin<W: Wire, C: Sink>(
        &mut self,
        wire: &mut W,
        sink: &mut C,
        own: &[Prefix],
        passive: bool,
    ) -> Result<(), SpeakFault>
        requires failures { C.failures sink.old < u64.MAX }
        requires idle { IsTrue (is_idle self.old.core) }
        ensures ok { OnOk result ((connection : Connection) (left : ℕ)
            → Went W.tells C.takes (capture_of self.old.config)
            (in_hand (first_owed own.now passive) [] connection left self.old.core)
            wire.old sink.old
            (in_hand [] [] connection left self.new.core) wire.new sink.new) }
        ensures err { IfErr result (λ fault. (connection : Connection) (left : ℕ)
            → Cut W.tells C.takes (capture_of self.old.config) fault
            (in_hand (first_owed own.now passive) [] connection left self.old.core)
            wire.old sink.old wire.new sink.new) }
        ensures config { self.new.config ≡ self.old.config }
        ensures connection { W.connection wire.new ≡ W.connection wire.old }
        ensures wire_failures { W.failures wire.new ≡ W.failures wire.old }
        ensures sink_failures { C.failures sink.new ≡ faults_after (C.failures sink.old) result }
    {
        self.introduce(wire, sink, own)?;
        if passive {
            return self.enter_silent(wire, sink, &Input::Passive);
        }
        self.enter_silent(wire, sink, &Input::Start)
    }

    /// Announces the prefixes, starts, connects, and takes turns until the core rests, at most so
    /// many. Answers how many are left.
    pub(crate) fn converse<W: Wire, C: Sink>(
        &mut self,
        wire: &mut W,
        sink: &mut C,
        own: &[Prefix],
        passive: bool,
        turns: u64,
    ) -> Result<u64, SpeakFault>
        requires failures { C.failures sink.old < u64.MAX }
        requires idle { IsTrue (is_idle self.old.core) }
        requires fresh { W.connection wire.old ≡ NotAsked }
        requires wire_failures { W.failures wire.old + 4 < u64.MAX }
        ensures ok { IfOk result (λ left. Went W.tells C.takes (capture_of self.old.config)
            (in_hand (first_owed own.now passive) [] NotAsked turns self.old.core)
            wire.old sink.old
            (in_hand [] [] (W.connection wire.new) left self.new.core) wire.new sink.new) }
        ensures most { IfOk result (λ left. left ≤ turns) }
        ensures ends { IfOk result (λ left. IsTrue (is_resting self.new.core) ⊎ (left ≡ 0)) }
        ensures asked { OnOk result ((answer : Bool)
            × (W.connection wire.new ≡ connection_after answer)) }
        ensures ready { OnOk result (IsTrue (is_resting self.new.core)
            ⊎ (W.connection wire.new ≡ Stands)) }
        ensures err { IfErr result (λ fault. Cut W.tells C.takes (capture_of self.old.config) fault
            (in_hand (first_owed own.now passive) [] NotAsked turns self.old.core)
            wire.old sink.old wire.new sink.new) }
        ensures config { self.new.config ≡ self.old.config }
        ensures wire_failures { W.failures wire.new ≤ W.failures wire.old + 4 }
        ensures sink_failures { C.failures sink.new ≡ faults_after (C.failures sink.old) result }
    {
        self.begin(wire, sink, own, passive)?;
        self.open(wire, sink)?;
        if self.rests() {
            return Ok(turns);
        }
        self.take_turns(wire, sink, turns)
    }

    /// Hands in Stop, unless the core is Idle.
    pub(crate) fn close<W: Wire, C: Sink>(
        &mut self,
        wire: &mut W,
        sink: &mut C,
    ) -> Result<(), SpeakFault>
        requires failures { C.failures sink.old < u64.MAX }
        requires wire_failures { W.failures wire.old < u64.MAX }
        requires ready { IsTrue (is_resting self.old.core) ⊎ (W.connection wire.old ≡ Stands) }
        ensures ok { OnOk result (Went W.tells C.takes (capture_of self.old.config)
            (in_hand (closing_owed self.old.core) [] (W.connection wire.old) 0 self.old.core)
            wire.old sink.old
            (in_hand [] [] (W.connection wire.old) 0 self.new.core) wire.new sink.new) }
        ensures err { IfErr result (λ fault. Cut W.tells C.takes (capture_of self.old.config) fault
            (in_hand (closing_owed self.old.core) [] (W.connection wire.old) 0 self.old.core)
            wire.old sink.old wire.new sink.new) }
        ensures sink_failures { C.failures sink.new ≡ faults_after (C.failures sink.old) result }
    {
        if self.is_idle() {
            return Ok(());
        }
        if self.rests() {
            return self.enter_silent(wire, sink, &Input::Stop);
        }
        self.hand_in(wire, sink, &Input::Stop)
    }
}
