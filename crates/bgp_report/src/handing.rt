//! The end of a report.

ghost use Rattle.std.specs.Prelude.{◌≡◌, ◌⊎◌, [], IsFalse, IsTrue};
ghost use Rattle.bgp_text.specs.Lines.{Writes};

use bgp_text::Lines;
use bgp_tool::Status;
use mrt::{Failed, Sink};

/// Hands over what is put, and returns this exit status, or that of a device if the sink failed.
pub(crate) fn handed_over<W: Sink>(lines: &mut Lines<'_, W>, status: u8) -> u8
    ensures writes { Writes lines.old lines.new [] }
    ensures none { lines.new.held.items ≡ [] }
    ensures told { (IsFalse lines.new.outlet.has_failed × (result ≡ status))
        ⊎ (IsTrue lines.new.outlet.has_failed × (result ≡ 5)) }
{
    match lines.hand_over() {
        Ok(()) => status,
        Err(Failed) => Status::Device.code(),
    }
}
