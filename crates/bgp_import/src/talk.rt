//! The connections between two addresses.

ghost use Rattle.streams.specs.Held.{AllSound};

use segments::PacketFault;
use std::alloc::{AllocError, Allocator};
use streams::{Connections, Passed};

/// The connections between two addresses.
#[derive(Drop)]
pub struct Talk<A: Allocator> {
    /// Those whose packets were taken.
    pub connections: Connections<A>,
    /// Why none of them can be told, and at which packet.
    pub refusal: Option<(PacketFault, u64)>,
    ghost sound: { AllSound connections },
}

impl<A: Allocator + Copy> Talk<A> {
    ghost use Rattle.std.specs.Prelude.{OnOk};
    ghost use Rattle.streams.specs.Passed.{segment_of};
    ghost use Rattle.bgp_import.specs.Talks.{IsFresh, IsRefusedBy, TakesSegment};

    /// None yet.
    pub(crate) fn new(alloc: A) -> Talk<A>
        ensures { IsFresh result }
    {
        Talk {
            connections: Connections::new(alloc),
            refusal: None,
        }
    }

    /// Takes a segment. Refused for memory, none are held.
    pub(crate) fn take(&mut self, alloc: A, passed: &Passed<'_>) -> Result<(), AllocError>
        ensures { OnOk result (TakesSegment (segment_of passed.now) self.old self.new) }
    {
        match self.connections.take(passed) {
            Ok(()) => Ok(()),
            Err(AllocError) => {
                self.connections = Connections::new(alloc);
                Err(AllocError)
            }
        }
    }

    /// Refuses all connections, at this packet if not at one before it.
    pub(crate) fn refuse(&mut self, fault: PacketFault, packet: u64)
        ensures { IsRefusedBy fault packet self.old self.new }
    {
        if self.refusal.is_none() {
            self.refusal = Some((fault, packet));
        }
    }
}
