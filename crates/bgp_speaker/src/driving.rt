//! A core that is told one thing after another.

ghost use Rattle.std.specs.Prelude.{◌≡◌, map, IfOk};
ghost use Rattle.bgp_machine.specs.Run.{IsComplete};
ghost use Rattle.bgp_machine.specs.State.{fsm_of};
ghost use Rattle.mrt.specs.Written.{AreInOrder};
ghost use Rattle.bgp_speaker.specs.Choosing.{Drives, sent_in};
ghost use Rattle.bgp_speaker.specs.Connection.{DrivesHearing, new_connection};
ghost use Rattle.bgp_speaker.specs.Core.{CoreState, fresh_core, without_offers};
ghost use Rattle.bgp_speaker.specs.Shown.{input_value, shown_value};
ghost use Rattle.bgp_speaker.specs.Driven.{input_at};

use crate::engine::Core;
use crate::input::Input;
use crate::shown::Shown;
use bgp_machine::Fsm;
use bgp_open::Config;
use bgp_prefix::Seconds;
use bgp_rib::RibIn;
use std::alloc::{AllocError, Allocator, Global};

/// What a core did on many inputs, and where it is after them.
#[derive(Drop)]
pub struct Run<A: Allocator = Global> {
    /// The octets that it sent.
    pub sent: Vec<u8, A>,
    /// The records of what it did, in order.
    pub records: Vec<Shown<A>, A>,
    /// The name of the session's state.
    pub fsm: Fsm,
    /// The routes that the peer has announced, and the families that are disabled.
    pub rib: RibIn<A>,
}

/// The same input.
fn again<'a>(input: &Input<'a>) -> Input<'a>
    ensures { input_value result ≡ input_value input.now }
{
    match input {
        Input::Start => Input::Start,
        Input::Passive => Input::Passive,
        Input::Stop => Input::Stop,
        Input::Connected => Input::Connected,
        Input::Failed => Input::Failed,
        Input::Bytes(octets) => Input::Bytes(octets),
        Input::Tick => Input::Tick,
        Input::Announce(prefix) => Input::Announce(*prefix),
        Input::Withdraw(prefix) => Input::Withdraw(*prefix),
    }
}

/// What a fresh core does on these inputs, one after another, each at its second; one below the
/// last is taken as the last. The core offers nothing about routes, whatever is configured: so all
/// this is said of the configuration without its offers. The records are those of a run of the
/// session machine which ends with the answered state and routes, and the octets those of the sent
/// messages. Each connection is heard: the messages received on it are the first of those that stand
/// in its octets, and all of them while it stands. Refused for memory, nothing is left.
pub fn drive<A: Allocator + Copy>(
    alloc: A,
    config: &Config,
    next_hop4: u32,
    next_hop6: u128,
    inputs: &[(Seconds, Input<'_>)],
) -> Result<Run<A>, AllocError>
    ensures steps { IfOk result (λ run. (e : CoreState) × Drives (fresh_core (record {
      config = without_offers config.now;
      next_hop4 = next_hop4;
      next_hop6 = next_hop6;
    })) (map input_at inputs.now) (map shown_value run.records.items) e
        × (run.fsm ≡ fsm_of e.moment.session.head) × (run.rib ≡ e.moment.session.routes)) }
    ensures run { IfOk result (λ run. IsComplete (without_offers config.now)
        (map shown_value run.records.items) (record { fsm = run.fsm; routes = run.rib })) }
    ensures sent { IfOk result
        (λ run. run.sent.items ≡ sent_in (map shown_value run.records.items)) }
    ensures heard { IfOk result (λ run. (e : CoreState) × DrivesHearing (fresh_core (record {
      config = without_offers config.now;
      next_hop4 = next_hop4;
      next_hop6 = next_hop6;
    })) new_connection (map input_at inputs.now) (map shown_value run.records.items) e) }
    ensures seconds { IfOk result (λ run. AreInOrder 0 (map shown_value run.records.items)) }
{
    let mut core = Core::new(alloc, config, next_hop4, next_hop6);
    let mut sent = Vec::new(alloc);
    let mut records = Vec::new(alloc);
    for (second, input) in inputs {
        let mut output = core.step(again(input), *second)?;
        sent.append(&mut output.octets)?;
        records.append(&mut output.records)?;
    }
    Ok(Run {
        sent,
        records,
        fsm: core.fsm(),
        rib: core.into_rib(),
    })
}
