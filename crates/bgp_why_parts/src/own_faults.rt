//! What an OPEN that was sent says that no configuration has.

ghost use Rattle.std.specs.Prelude.{◌≡◌, ◌∷◌, [], codes};
ghost use Rattle.bgp_why_parts.specs.Pieces.{next_separator, separated};
ghost use Rattle.bgp_names.specs.Lines.{Writes};
ghost use Rattle.bgp_why_parts.specs.OwnFaults.{as_piece, as_text, hold_piece, id_piece};
ghost use Rattle.bgp_why_parts.specs.OwnFaults.{own_faults_text};

use bgp_names::Lines;
use bgp_wire::two_octet_as;
use mrt::Sink;

/// What an OPEN that was sent says that no configuration has.
#[derive(Clone, Copy, Debug, PartialEq, Eq)]
pub struct OwnFaults {
    /// My Autonomous System, and the AS number that the OPEN says, if that is 0 or isn't what the
    /// former stands for.
    pub as_numbers: Option<(u16, u32)>,
    /// The BGP Identifier is 0.
    pub id: bool,
    /// The Hold Time, if it is 1 or 2.
    pub hold: Option<u16>,
}

/// An AS number that is 0, or both if they don't fit.
fn put_as<W: Sink>(lines: &mut Lines<'_, W>, my_as: u16, number: u32)
    ensures { Writes lines.old lines.new (as_text my_as number) }
{
    if my_as == two_octet_as(number) {
        lines.put(b"AS ");
        lines.put_decimal(my_as);
    } else {
        lines.put(b"My AS ");
        lines.put_decimal(my_as);
        lines.put(b" and four-octet AS ");
        lines.put_decimal(number);
    }
}

/// The AS numbers, after a separator. Answers the next one, as that below.
fn put_as_numbers<W: Sink>(
    lines: &mut Lines<'_, W>,
    before: &'static [u8],
    as_numbers: Option<(u16, u32)>,
) -> &'static [u8]
    ensures writes { Writes lines.old lines.new
        (separated (codes " and ") before.now (as_piece as_numbers ∷ [])) }
    ensures next { result.now
        ≡ next_separator (codes " and ") before.now (as_piece as_numbers) }
{
    let Some((my_as, number)) = as_numbers else {
        return before;
    };
    lines.put(before);
    put_as(lines, my_as, number);
    b" and "
}

/// The BGP Identifier.
fn put_id<W: Sink>(lines: &mut Lines<'_, W>, before: &'static [u8], id: bool) -> &'static [u8]
    ensures writes { Writes lines.old lines.new
        (separated (codes " and ") before.now (id_piece id ∷ [])) }
    ensures next { result.now ≡ next_separator (codes " and ") before.now (id_piece id) }
{
    if !id {
        return before;
    }
    lines.put(before);
    lines.put(b"BGP Identifier 0.0.0.0");
    b" and "
}

/// The Hold Time.
fn put_hold<W: Sink>(lines: &mut Lines<'_, W>, before: &'static [u8], hold: Option<u16>)
    ensures { Writes lines.old lines.new
        (separated (codes " and ") before.now (hold_piece hold ∷ [])) }
{
    if let Some(hold) = hold {
        lines.put(before);
        lines.put(b"Hold Time ");
        lines.put_decimal(hold);
    }
}

/// Puts what an OPEN says that no configuration has, as in `AS 0 and Hold Time 1`, after these
/// octets. Nothing is put if it says nothing of the kind.
pub fn put_own_faults<W: Sink>(lines: &mut Lines<'_, W>, before: &'static [u8], faults: &OwnFaults)
    ensures { Writes lines.old lines.new (own_faults_text before.now faults.now) }
{
    let first = put_as_numbers(lines, before, faults.as_numbers);
    let second = put_id(lines, first, faults.id);
    put_hold(lines, second, faults.hold);
}
