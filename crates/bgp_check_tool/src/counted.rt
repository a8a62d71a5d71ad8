//! How what is told of a recording is counted.

ghost use Rattle.std.specs.Prelude.{◌≡◌, [], Some};
ghost use Rattle.bgp_import.specs.Refusals.{cause_of};
ghost use Rattle.bgp_tool.specs.Status.{code_of};
ghost use Rattle.bgp_check_lines.specs.Tally.{no_tally};
ghost use Rattle.bgp_list.specs.Firsts.{AreApart, with_first};
ghost use Rattle.bgp_check_tool.specs.Blocks.{block_of, refusal_in};
ghost use Rattle.bgp_check_tool.specs.Counted.{cause_status, with_block, with_refused};

use crate::connection::EndsTold;
use arrayvec::ArrayVec;
use bgp_check_lines::Tally;
use bgp_import::{Cause, Refusal};
use bgp_list::{NUMBERS, add_first};
use bgp_prefix::Session;
use bgp_tool::Status;
use std::alloc::Allocator;
use streams::Opening;

/// The exit status of a refusal by itself.
fn cause_status(cause: Cause) -> Status
    ensures { code_of result ≡ cause_status cause }
{
    match cause {
        Cause::Recording => Status::Refused,
        Cause::Memory => Status::Memory,
        Cause::Device => Status::Device,
    }
}

/// What is counted of a recording.
#[derive(Drop)]
pub(crate) struct Counted {
    /// Its ends and its refusals.
    pub(crate) tally: Tally,
    /// The refusals, of each number the first, in their order. None of them is `None`.
    pub(crate) refusals: ArrayVec<Option<Refusal>, NUMBERS>,
}

impl Counted {
    /// Nothing so far.
    pub(crate) fn new() -> Counted
        ensures tally { result.tally ≡ no_tally }
        ensures refusals { result.refusals.items ≡ [] }
    {
        Counted {
            tally: Tally::new(),
            refusals: ArrayVec::new(),
        }
    }

    /// Counts a refusal more.
    pub(crate) fn add_refusal(&mut self, refusal: Refusal)
        requires { AreApart self.old.refusals.items }
        ensures tallied { self.new.tally ≡ with_refused self.old.tally refusal }
        ensures added { self.new.refusals.items
            ≡ with_first self.old.refusals.items (Some refusal) }
        ensures apart { AreApart self.new.refusals.items }
    {
        self.tally = with_refused(self.tally, refusal);
        add_first(&mut self.refusals, Some(refusal));
    }

    /// Counts a connection more.
    pub(crate) fn add_connection<A: Allocator>(
        &mut self,
        session: &Session,
        opening: Opening,
        told: &Result<EndsTold<'_, A>, Refusal>,
    )
        requires { AreApart self.old.refusals.items }
        ensures tallied { self.new.tally
            ≡ with_block self.old.tally (block_of session.now opening told.now) }
        ensures added { self.new.refusals.items ≡ with_first self.old.refusals.items
            (refusal_in (block_of session.now opening told.now)) }
        ensures apart { AreApart self.new.refusals.items }
    {
        match told {
            Ok(EndsTold::Both(both)) => {
                self.tally = self
                    .tally
                    .with_end(&both.opener.answer)
                    .with_end(&both.other.answer);
            }
            Ok(EndsTold::One(..)) => {
                self.tally = self.tally.with_unjudged(false).with_unjudged(false);
            }
            Err(refusal) => self.add_refusal(*refusal),
        }
    }
}

/// The tally with a refusal more.
fn with_refused(tally: Tally, refusal: Refusal) -> Tally
    ensures { result ≡ with_refused tally refusal }
{
    tally.with_refusal(cause_status(refusal.cause()))
}
