//! The refusals of a list, each number once.

ghost use Rattle.std.specs.Prelude.{◌≡◌};
ghost use Rattle.bgp_list.specs.Firsts.{AreApart, has_number, number_in, with_first};

use arrayvec::ArrayVec;
use bgp_import::Refusal;

/// How many refusals may be there, each with a number of its own: none has 19 or more.
pub const NUMBERS: usize = 19;

/// The number of a refusal, 0 of none.
fn number_in(refusal: Option<Refusal>) -> u8
    ensures { result ≡ number_in refusal }
{
    match refusal {
        Some(refusal) => refusal.number(),
        None => 0,
    }
}

/// Whether one of these has this number.
fn has_number(refusals: &[Option<Refusal>], number: u8) -> bool
    ensures { result ≡ has_number number refusals.now }
{
    refusals.iter().any(|refusal| number == number_in(*refusal))
}

/// Adds a refusal, where there is one and none of its number is there yet.
pub fn add_first(refusals: &mut ArrayVec<Option<Refusal>, NUMBERS>, refusal: Option<Refusal>)
    requires { AreApart refusals.old.items }
    ensures adds { refusals.new.items ≡ with_first refusals.old.items refusal }
    ensures apart { AreApart refusals.new.items }
{
    let Some(found) = refusal else {
        return;
    };
    if !has_number(refusals.as_slice(), found.number()) {
        refusals.push(refusal);
    }
}
