//! The plain tracker: a list of whole members. It is easy to believe, and slow: it copies the
//! routes of each member at each record.

ghost use Rattle.std.specs.Prelude.{◌≡◌, ◌↔◌, ◌++◌, ◌∷◌, [], List, IsTrue, IfOk, OnErr, map};
ghost use Rattle.bgp_prefix.specs.Shown.{ShownRecord};
ghost use Rattle.bgp_open.specs.declared.config.Config.{Config as TheConfig};
ghost use Rattle.bgp_machine.specs.Run.{Begins};
ghost use Rattle.mrt.specs.Reader.{shown_of};
ghost use Rattle.bgp_judge.specs.Ends.{ListsEnds, end_value};

use crate::end::End;
use crate::ending::ends_of;
use crate::member::PlainMember;
use crate::members::{has_some, next_members};
use crate::tracker::Tracker;
use bgp_machine::each_owed_want_can_be_met;
use bgp_open::Config;
use mrt::Record;
use std::alloc::{AllocError, Allocator, Global};

/// A tracker that keeps every member whole, in a list, no two equal.
#[derive(Drop)]
pub struct PlainTracker<A: Allocator = Global> {
    alloc: A,
    config: Config,
    members: Vec<PlainMember<A>, A>,
}

impl<A: Allocator + Copy> Tracker<A> for PlainTracker<A> {
    ghost use Rattle.bgp_judge.specs.Plain.{Among, AreApart};
    ghost use Rattle.bgp_judge.specs.Stands.{StandFor};

    ghost stands_for = { λ tracker config records.
        (tracker.config ≡ config) × StandFor config (Among tracker.members.items) records
        × AreApart tracker.members.items };

    // It keeps a list of members from the start, and copies them at each record.
    ghost may_lack_at_start = { λ config. Unit {0} };

    ghost may_lack = { λ config records shown. Unit {0} };

    fn start(alloc: A, config: &Config) -> Result<PlainTracker<A>, AllocError> {
        let mut members = Vec::new(alloc);
        members.push(PlainMember::fresh(alloc))?;
        Ok(PlainTracker {
            alloc,
            config: *config,
            members,
        })
    }

    fn take(&mut self, shown: &Record<'_>) -> Result<bool, AllocError> {
        each_owed_want_can_be_met();
        let next = next_members(self.alloc, &self.config, self.members.as_slice(), shown)?;
        if !has_some(next.as_slice()) {
            return Ok(false);
        }
        self.members = next;
        Ok(true)
    }

    fn may_take(&self, shown: &Record<'_>) -> Result<bool, AllocError> {
        each_owed_want_can_be_met();
        let members = next_members(self.alloc, &self.config, self.members.as_slice(), shown)?;
        Ok(has_some(members.as_slice()))
    }

    fn ends(&self) -> Result<Vec<End<A>, A>, AllocError> {
        ends_of(self.alloc, self.members.as_slice())
    }
}
