//! Steps that show no record.

ghost use Rattle.std.specs.Prelude.{◌≡◌, List, [], ◌∷◌};
ghost use Rattle.bgp_rib.specs.Routes.{Routes};
ghost use Rattle.bgp_open.specs.declared.config.Config.{Config as TheConfig};
ghost use Rattle.bgp_machine.specs.Rows.{silent_heads};
ghost use Rattle.bgp_machine.specs.Run.{ListsSilent};
ghost use Rattle.bgp_machine.specs.declared.state.Head.TheVariants as heads;

use crate::state::Head;
use arrayvec::ArrayVec;
use bgp_open::Config;

fn one(head: Head) -> ArrayVec<Head, 2>
    ensures { result.items ≡ head ∷ [] }
{
    let mut heads = ArrayVec::new();
    heads.push(head);
    heads
}

fn two(head: Head, other: Head) -> ArrayVec<Head, 2>
    ensures { result.items ≡ head ∷ other ∷ [] }
{
    let mut heads = one(head);
    heads.push(other);
    heads
}

/// From Connect, the delay may begin where it is allowed, and another try ends it.
fn from_connect(may_delay: bool, delay: bool) -> ArrayVec<Head, 2>
    ensures { (config : TheConfig) → config.parts.delay_open ≡ may_delay
        → result.items ≡ silent_heads config (heads.Connect delay) }
{
    if delay || may_delay {
        return two(Head::Connect(false), Head::Connect(true));
    }
    one(Head::Connect(false))
}

/// From Active, the delay may begin where it is allowed.
fn from_active(may_delay: bool, delay: bool) -> ArrayVec<Head, 2>
    ensures { (config : TheConfig) → config.parts.delay_open ≡ may_delay
        → result.items ≡ silent_heads config (heads.Active delay) }
{
    if delay {
        return one(Head::Active(true));
    }
    if may_delay {
        return two(Head::Active(false), Head::Active(true));
    }
    one(Head::Active(false))
}

/// The heads that silence leads to.
fn heads_after(config: &Config, head: Head) -> ArrayVec<Head, 2>
    ensures { result.items ≡ silent_heads config.now head }
{
    let may_delay = config.parts.delay_open;
    match head {
        Head::Connect(delay) => from_connect(may_delay, delay),
        Head::Active(delay) => from_active(may_delay, delay),
        _ => one(head),
    }
}

/// Lists the heads that a session may reach by steps that show no record: its own one among them,
/// each once, and those without a delay first. It takes no memory.
pub fn silent_steps(config: &Config, head: Head) -> ArrayVec<Head, 2>
    ensures { (routes : Routes)
        → ListsSilent config.now (record { head = head; routes = routes }) result.items }
{
    heads_after(config, head)
}
