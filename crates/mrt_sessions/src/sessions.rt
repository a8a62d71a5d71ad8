//! The sessions of a file, each with its records.

ghost use Rattle.std.specs.Prelude.{◌≡◌, ◌++◌, ◌∷◌, IfOk, List, OnOk, []};
ghost use Rattle.std.specs.Prelude.{map, option_map, unwrap_or};
ghost use Rattle.mrt_sessions.specs.File.{Located};
ghost use Rattle.mrt_sessions.specs.Located.{located};
ghost use Rattle.mrt_sessions.specs.Sessions.{HoldsSessions};
ghost use Rattle.mrt_sessions.specs.Gathering.{Begins, Gathers};

use crate::addresses::Addresses;
use crate::named::NamedRecord;
use std::alloc::{AllocError, Allocator, Global};
use std::collections::BTreeMap;

/// The sessions of a file, in the order of their first records, each with all of its records.
#[derive(Drop)]
pub struct Sessions<'a, A: Allocator = Global> {
    alloc: A,
    order: Vec<Addresses, A>,
    by_addresses: BTreeMap<Addresses, Vec<NamedRecord<'a>, A>, A>,
}

impl<'a, A: Allocator + Copy> Sessions<'a, A> {
    ghost use Rattle.mrt_sessions.specs.Sessions.{held_records, held_sessions};

    /// None yet.
    fn new(alloc: A) -> Sessions<'a, A>
        ensures { Gathers [] result }
    {
        Sessions {
            alloc,
            order: Vec::new(alloc),
            by_addresses: BTreeMap::new(alloc),
        }
    }

    /// Holds this session, of which there may be no record yet.
    fn begin(&mut self, addresses: Addresses) -> Result<(), AllocError>
        ensures { OnOk result (Begins self.old self.new addresses) }
    {
        if !self.by_addresses.contains_key(&addresses) {
            self.order.push(addresses)?;
            self.by_addresses.insert(addresses, Vec::new(self.alloc))?;
        }
        Ok(())
    }

    /// Takes a record more.
    fn take(&mut self, taken: NamedRecord<'a>) -> Result<(), AllocError>
        ensures { OnOk result ((named : List Located) → Gathers named self.old
            → Gathers (named ++ located taken.entry ∷ []) self.new) }
    {
        let addresses = taken.addresses();
        self.begin(addresses)?;
        match self.by_addresses.get_mut(&addresses) {
            Some(records) => {
                records.push(taken)?;
                Ok(())
            }
            None => Ok(()),
        }
    }

    /// The sessions of these records. `AllocError` is answered where there was no memory for them.
    pub fn of(alloc: A, records: &[NamedRecord<'a>]) -> Result<Sessions<'a, A>, AllocError>
        ensures { IfOk result (λ sessions. HoldsSessions (map located records.now) sessions) }
    {
        let mut sessions = Sessions::new(alloc);
        for named in records {
            sessions.take(*named)?;
        }
        Ok(sessions)
    }

    /// The sessions in the order of their first records.
    pub fn in_order(&self) -> &[Addresses]
        ensures { result.now ≡ held_sessions self.now }
    {
        self.order.as_slice()
    }

    /// The records of this session, in their order, if the file has it.
    pub fn records(&self, addresses: Addresses) -> Option<&[NamedRecord<'a>]>
        ensures { unwrap_or (option_map (λ records. map located records.now) result) []
            ≡ held_records self.now addresses }
    {
        let records = self.by_addresses.get(&addresses)?;
        Some(records.as_slice())
    }
}
