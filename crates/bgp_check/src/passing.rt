//! ROUTE-REFRESH messages that are passed over.

ghost use Rattle.std.specs.Prelude.{◌≡◌, ◌↔◌, IfOk, IsTrue, map};
ghost use Rattle.mrt.specs.Reader.{shown_of};
ghost use Rattle.bgp_check.specs.Passed.{IsPassedOver, Keeps, left_value, nothing_left};

use mrt::{Record, is_whole_refresh};
use std::alloc::{AllocError, Allocator, Global};

/// Which ROUTE-REFRESH messages (RFC 2918) may come, by direction: those whose receiver offers
/// route refresh.
#[derive(Clone, Copy, Debug, PartialEq, Eq)]
pub struct RefreshOffers {
    /// Those that the local system receives.
    pub received: bool,
    /// Those that it sends.
    pub sent: bool,
}

/// The records of a stretch without those that are passed over.
#[derive(Drop)]
pub struct Kept<'a, A: Allocator = Global> {
    /// The records, in their order.
    pub records: Vec<Record<'a>, A>,
    /// How many records of the stretch stand before each.
    pub places: Vec<usize, A>,
    /// How many messages are passed over that were received.
    pub received: usize,
    /// And that were sent.
    pub sent: usize,
}

/// Whether the record is passed over: a whole ROUTE-REFRESH that may come.
fn is_passed_over(shown: &Record<'_>, offers: RefreshOffers) -> bool
    ensures { IsTrue result ↔ IsPassedOver offers (shown_of shown.now) }
{
    match shown {
        Record::In(_, octets) => offers.received && is_whole_refresh(octets),
        Record::Out(_, octets) => offers.sent && is_whole_refresh(octets),
        Record::Change(..) => false,
    }
}

impl<'a, A: Allocator + Copy> Kept<'a, A> {
    ghost use Rattle.std.specs.Prelude.{◌<◌, OnOk};
    ghost use Rattle.bgp_check.specs.Passed.{Takes, left_value, nothing_left, one_passed};

    /// None yet.
    fn new(alloc: A) -> Kept<'a, A>
        ensures { left_value result ≡ nothing_left }
    {
        Kept {
            records: Vec::new(alloc),
            places: Vec::new(alloc),
            received: 0,
            sent: 0,
        }
    }

    /// Counts a message that is passed over.
    fn pass_over(&mut self, shown: &Record<'_>)
        requires received { self.old.received < usize.MAX }
        requires sent { self.old.sent < usize.MAX }
        ensures { left_value self.new ≡ one_passed (shown_of shown.now) (left_value self.old) }
    {
        match shown {
            Record::In(..) => self.received += 1,
            Record::Out(..) => self.sent += 1,
            Record::Change(..) => {}
        }
    }

    /// Takes a record more, before which so many stand.
    fn take(
        &mut self,
        offers: RefreshOffers,
        place: usize,
        shown: Record<'a>,
    ) -> Result<(), AllocError>
        requires received { self.old.received < usize.MAX }
        requires sent { self.old.sent < usize.MAX }
        ensures { OnOk result (Takes offers place (shown_of shown.entry)
            (left_value self.old) (left_value self.new)) }
    {
        if is_passed_over(&shown, offers) {
            self.pass_over(&shown);
            return Ok(());
        }
        self.records.push(shown)?;
        self.places.push(place)?;
        Ok(())
    }
}

/// The records without those that are passed over. `AllocError` is answered where there was no
/// memory for them.
pub(crate) fn keep<'a, A: Allocator + Copy>(
    alloc: A,
    offers: RefreshOffers,
    records: &[Record<'a>],
) -> Result<Kept<'a, A>, AllocError>
    ensures { IfOk result (λ kept. Keeps offers 0 (map shown_of records.now) nothing_left
        (left_value kept)) }
{
    let mut kept = Kept::new(alloc);
    let mut place = 0;
    for shown in records {
        kept.take(offers, place, *shown)?;
        place += 1;
    }
    Ok(kept)
}
