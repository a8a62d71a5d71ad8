//! What is printed of a number that may have a name.

ghost use Rattle.std.specs.Prelude.{◌++◌, ℕ, List, option_map};
ghost use Rattle.std.specs.Borrow.{Bor};
ghost use Rattle.bgp_text.specs.Lines.{Writes};
ghost use Rattle.bgp_names.specs.Naming.{name_or};

use bgp_text::{Lines, Sink};
use itoa::Integer;

/// Puts a name, or the word and the number if there is none.
pub(crate) fn put_named<W: Sink, I: Integer>(
    lines: &mut Lines<'_, W>,
    word: &[u8],
    number: I,
    name: Option<&'static str>,
)
    ensures { Writes lines.old lines.new (name_or (word.now ++ I.text number)
        (option_map (λ (text : Bor (List ℕ)). text.now) name.entry)) }
{
    match name {
        Some(name) => lines.put(name.as_bytes()),
        None => {
            lines.put(word);
            lines.put_decimal(number);
        }
    }
}
