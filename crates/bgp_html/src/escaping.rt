//! A sink that puts what it takes into HTML.

ghost use Rattle.std.specs.Prelude.{◌≡◌};

use crate::escaped::put_escaped;
use bgp_text::Lines;
use mrt::{Failed, Sink};

/// A sink whose octets are put into the HTML of these lines as text. It never fails: if the sink of
/// the lines does, they tell of it.
#[derive(Drop)]
pub struct Escaping<'a, 'b, W: Sink> {
    lines: &'a mut Lines<'b, W>,
}

impl<'a, 'b, W: Sink> Escaping<'a, 'b, W> {
    /// A sink that has taken nothing yet.
    pub fn new(lines: &'a mut Lines<'b, W>) -> Escaping<'a, 'b, W>
        ensures same { result.lines.ghost_name ≡ lines.entry.ghost_name }
        ensures now { result.lines.now ≡ lines.old }
    {
        Escaping { lines }
    }
}

impl<W: Sink> Sink for Escaping<'_, '_, W> {
    ghost use Rattle.bgp_html.specs.Escaping.{Puts, puts_joined, puts_nothing};

    ghost takes = { λ a b. Puts a.lines b.lines };

    ghost failures = { λ a. 0 };

    ghost nothing = { λ a. puts_nothing W.nothing a.lines };

    ghost joined = { λ a b c. puts_joined W.joined a.lines b.lines c.lines };

    fn write(&mut self, octets: &[u8]) -> Result<usize, Failed> {
        put_escaped(self.lines, octets);
        Ok(octets.len())
    }

    fn failures(&self) -> u64 {
        0
    }
}
