//! Ten thousand changes of a few hundred destinations, beside a list that the test keeps itself.

use super::*;

/// How many destinations there are without identifiers, and how many with: of IPv4 those with an
/// even number, of IPv6 the others.
const COUNT: u32 = 300;

/// How many changes.
const CHANGES: u32 = 10_000;

/// Numbers that repeat after 2^64 turns (Knuth's MMIX).
#[derive(Clone, Copy)]
struct Dice(u64);

impl Dice {
    /// A number below `limit`.
    fn below(&mut self, limit: u32) -> u32 {
        self.0 = self
            .0
            .wrapping_mul(6_364_136_223_846_793_005)
            .wrapping_add(1_442_695_040_888_963_407);
        let high = self.0 >> 33;
        u32::try_from(high)
            .unwrap_or(0)
            .checked_rem(limit)
            .unwrap_or(0)
    }

    /// Some destinations of one kind, up to five of them, some twice.
    fn numbers(&mut self) -> Numbers {
        let kind = self.below(2).saturating_mul(IDENTIFIED);
        let first = kind.saturating_add(self.below(220));
        (first, self.below(20), self.below(6))
    }

    /// Changes with up to two groups, whose marks no other turn has.
    fn told(&mut self, turn: u32) -> Told {
        let groups = self.below(3);
        let mark = turn.saturating_mul(2);
        let first = (mark, self.numbers());
        let second = (mark.saturating_add(1), self.numbers());
        let remove = self.numbers();
        (
            remove,
            (groups > 0).then_some(first),
            (groups > 1).then_some(second),
        )
    }
}

/// Where a number's destination stands in the list.
fn place_of(number: u32) -> usize {
    match number.checked_sub(IDENTIFIED) {
        Some(place) => COUNT.saturating_add(place) as usize,
        None => number as usize,
    }
}

/// For each number the mark of its route's path, where there is a route; and what is disabled.
#[derive(Drop)]
struct Plain {
    marks: Vec<Option<u32>>,
    disabled: Families,
}

impl Plain {
    /// Whether the family of a number's destination is disabled.
    fn is_disabled(&self, number: u32) -> bool {
        match family_of(number) {
            Family::V4 => self.disabled.v4,
            Family::V6 => self.disabled.v6,
        }
    }

    /// Sets the mark of a number's route, or takes the route away, if its family isn't disabled.
    fn set(&mut self, number: u32, mark: Option<u32>) {
        let index = place_of(number);
        if index < self.marks.len() && !self.is_disabled(number) {
            self.marks[index] = mark;
        }
    }

    /// The same of several.
    fn set_all(&mut self, numbers: Numbers, mark: Option<u32>) {
        for index in 0..numbers.2 {
            self.set(number_at(numbers, index), mark);
        }
    }

    /// Puts a group, where there is one.
    fn put(&mut self, told: Option<Group>) {
        if let Some((mark, numbers)) = told {
            self.set_all(numbers, Some(mark));
        }
    }

    /// Makes changes.
    fn change(&mut self, told: &Told) {
        let (remove, first, second) = *told;
        self.set_all(remove, None);
        self.put(first);
        self.put(second);
    }

    /// Takes the routes of the family away whose first number this is, of both kinds.
    fn clear_both(&mut self, first: u32) {
        self.set_all((first, 2, COUNT / 2), None);
        self.set_all((IDENTIFIED.saturating_add(first), 2, COUNT / 2), None);
    }

    /// Takes the routes of a family away, and disables it.
    fn disable(&mut self, family: Family) {
        match family {
            Family::V4 => {
                self.clear_both(0);
                self.disabled.v4 = true;
            }
            Family::V6 => {
                self.clear_both(1);
                self.disabled.v6 = true;
            }
        }
    }

    /// Clears all.
    fn clear(&mut self) {
        self.disabled = NONE;
        self.clear_both(0);
        self.clear_both(1);
    }

    /// Whether the next routes are those of a kind and a family, which begin with this number.
    fn is_begun(&self, routes: &mut RouteIter<'_, Global>, first: u32) -> bool {
        for index in 0..COUNT / 2 {
            let number = number_at((first, 2, 0), index);
            if let Some(Some(mark)) = self.marks.get(place_of(number))
                && !is_next(routes, number, *mark)
            {
                return false;
            }
        }
        true
    }

    /// Whether these are the routes, those of IPv4 first, each family's without identifiers before
    /// those with, and in ascending order.
    fn is_listed(&self, rib: &RibIn) -> bool {
        let mut routes = rib.routes();
        self.is_begun(&mut routes, 0)
            && self.is_begun(&mut routes, IDENTIFIED)
            && self.is_begun(&mut routes, 1)
            && self.is_begun(&mut routes, IDENTIFIED + 1)
            && routes.next().is_none()
            && rib.disabled() == self.disabled
            && rib.len() == self.marks.iter().filter(|mark| mark.is_some()).count()
    }
}

/// Changes the table and the list alike.
fn take_turn(
    alloc: Global,
    dice: &mut Dice,
    turn: u32,
    rib: &mut RibIn,
    plain: &mut Plain,
) -> Result<(), AllocError> {
    let family = family_of(dice.below(2));
    match dice.below(200) {
        0 => {
            rib.disable(family);
            plain.disable(family);
            Ok(())
        }
        1 | 2 => {
            rib.clear();
            plain.clear();
            Ok(())
        }
        _ => {
            let told = dice.told(turn);
            plain.change(&told);
            change(rib, alloc, &told)
        }
    }
}

/// How many turns table and list have the same after each, up to all.
fn turns_alike(alloc: Global, rib: &mut RibIn, plain: &mut Plain) -> u32 {
    let mut dice = Dice(1);
    for turn in 0..CHANGES {
        let is_done = take_turn(alloc, &mut dice, turn, rib, plain).is_ok();
        if !(is_done && plain.is_listed(rib)) {
            return turn;
        }
    }
    CHANGES
}

/// The same of a table and a list of its own.
fn turns_of_its_own(alloc: Global) -> Result<u32, AllocError> {
    let mut plain = Plain {
        marks: vec![in alloc; None; 600]?,
        disabled: NONE,
    };
    let mut rib = RibIn::new(alloc);
    Ok(turns_alike(alloc, &mut rib, &mut plain))
}

#[test]
fn ten_thousand_changes_leave_what_a_sorted_list_has(rt: HostRuntime) {
    let turns = turns_of_its_own(rt.alloc()).unwrap_or(0);
    assert!(rt; turns == CHANGES, "turn {turns}");
}
