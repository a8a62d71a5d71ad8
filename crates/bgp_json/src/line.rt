//! The line of an object.

ghost use Rattle.std.specs.Prelude.{◌≡◌, ◌≤◌, [], OnOk};
ghost use Rattle.json.specs.Json.{Json, max_depth};
ghost use Rattle.json.specs.Tree.{depth, json_tokens};
ghost use Rattle.bgp_json.specs.Line.{PutsLine};
ghost use Rattle.bgp_json.specs.Object.{json_line};

use bgp_json_values::Writer;
use bgp_text::Lines;
use mrt::Sink;
use std::alloc::{AllocError, Allocator};

/// How many octets most objects have at the most.
const LINE: usize = 1024;

/// Starts what an object is written to, with room for most objects. If memory is refused for so
/// much, the room grows as the object does.
pub(crate) fn start<A: Allocator>(alloc: A) -> Writer<A>
    ensures before { result.before ≡ [] }
    ensures tokens { result.tokens ≡ [] }
{
    let mut writer = Writer::new(alloc);
    let _ = writer.make_room(LINE);
    writer
}

/// Puts the line of what was written, or nothing if memory was refused for it.
#[tactic(auto, unfolding(crate::specs::Object::json_line))]
pub(crate) fn put_written<A: Allocator, W: Sink>(
    lines: &mut Lines<'_, W>,
    writer: Writer<A>,
    written: Result<(), AllocError>,
) -> Result<(), AllocError>
    requires { OnOk written (writer.before ≡ []) }
    ensures { (value : Json) → OnOk written (writer.tokens ≡ json_tokens value)
        → depth value ≤ max_depth → PutsLine result lines.old lines.new (json_line value) }
{
    match written {
        Ok(()) => {
            let text = writer.into_inner();
            lines.put(text.as_slice());
            lines.put(b"\n");
            Ok(())
        }
        Err(fault) => Err(fault),
    }
}
