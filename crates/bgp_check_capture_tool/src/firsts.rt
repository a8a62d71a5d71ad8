//! The refusals of a capture, each number once.

ghost use Rattle.std.specs.Prelude.{◌≡◌};
ghost use Rattle.bgp_check_capture_tool.specs.Firsts.{AreApart, has_number, number_in, with_first};

use arrayvec::ArrayVec;
use mrt::CaptureFault;

/// How many refusals may be there, each with a number of its own: none has 11 or more.
pub(crate) const NUMBERS: usize = 11;

/// The number of a refusal, 0 of none.
fn number_in(fault: Option<CaptureFault>) -> u8
    ensures { result ≡ number_in fault }
{
    match fault {
        Some(fault) => fault.kind.number(),
        None => 0,
    }
}

/// Whether one of these has this number.
fn has_number(faults: &[Option<CaptureFault>], number: u8) -> bool
    ensures { result ≡ has_number number faults.now }
{
    faults.iter().any(|fault| number == number_in(*fault))
}

/// Adds a refusal, where there is one and none of its number is there yet.
pub(crate) fn add_first(
    faults: &mut ArrayVec<Option<CaptureFault>, NUMBERS>,
    fault: Option<CaptureFault>,
)
    requires { AreApart faults.old.items }
    ensures adds { faults.new.items ≡ with_first faults.old.items fault }
    ensures apart { AreApart faults.new.items }
{
    let Some(found) = fault else {
        return;
    };
    if !has_number(faults.as_slice(), found.kind.number()) {
        faults.push(fault);
    }
}
