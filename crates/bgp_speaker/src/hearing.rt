//! Hearing what a connection brings.

ghost use Rattle.std.specs.Prelude.{◌≡◌, ◌↔◌, ℕ, List, OnOk, IsTrue, false};
ghost use Rattle.bgp_rib.specs.Routes.{Routes};
ghost use Rattle.bgp_machine.specs.Heard.{received_limit};
ghost use Rattle.bgp_machine.specs.State.{link_at};
ghost use Rattle.bgp_speaker.specs.Choosing.{held_after};
ghost use Rattle.bgp_speaker.specs.Core.{IsConnected, IsPlain, OffersNothing};
ghost use Rattle.bgp_speaker.specs.Drafts.{HearsWell};

use crate::draft::Draft;
use crate::speaker::Speaker;
use bgp_machine::Head;
use bgp_prefix::{Prefix, Seconds};
use bgp_wire::{Frames, Limit, Next, each_stream_has_one_framing};
use std::alloc::{AllocError, Allocator};
use std::collections::BTreeSet;

/// Whether there is a connection that octets come from.
pub(crate) fn is_connected(head: Head) -> bool
    ensures { IsTrue result ↔ IsConnected head }
{
    match head {
        Head::Idle | Head::Connect(_) | Head::Active(_) => false,
        Head::OpenSent(_) | Head::OpenConfirm(_, _) | Head::Established(_, _) => true,
    }
}

/// Forgets what is held of messages that may be so long, unless there is a connection.
pub(crate) fn forget_unconnected<A: Allocator + Copy>(
    alloc: A,
    limit: Limit,
    head: Head,
    frames: &mut Frames<A>,
)
    requires { IsConnected head
        → (frames.old.limit ≡ limit) × (frames.old.is_closed ≡ false) }
    ensures { frames.new ≡ record {
      limit = limit;
      octets = held_after head frames.old.octets;
      is_closed = false;
    } }
{
    if !is_connected(head) {
        *frames = Frames::new(alloc, limit);
    }
}

/// Hears the messages that stand in what is held, while there is a connection.
pub(crate) fn hear_all<A: Allocator + Copy>(
    draft: &mut Draft<A>,
    speaker: &Speaker,
    kept: &BTreeSet<Prefix, A>,
    t: Seconds,
    frames: &mut Frames<A>,
) -> Result<(), AllocError>
    requires limit { frames.old.limit ≡ received_limit speaker.now.config }
    requires open { frames.old.is_closed ≡ false }
    requires offers { OffersNothing speaker.now.config }
    requires plain { IsPlain (link_at draft.old.head) }
    ensures { (routes : Routes) → OnOk result (HearsWell routes speaker.now kept.now.keys t
        frames.old.octets frames.new draft.old draft.new) }
{
    each_stream_has_one_framing();
    while is_connected(draft.head) {
        match frames.next() {
            Next::Frame(kind, octets) => draft.hear(speaker, kept, t, kind.code(), octets)?,
            Next::More => return Ok(()),
            Next::Fault(_, header) => return draft.hear(speaker, kept, t, header[18], header),
        }
    }
    Ok(())
}
