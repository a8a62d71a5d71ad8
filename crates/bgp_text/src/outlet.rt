//! A sink that is given nothing more once it has failed.

ghost use Rattle.std.specs.Prelude.{◌≡◌, ◌<◌, ◌^◌, ◌-◌, [], IsFalse};

use mrt::{Sink, write_all};

/// A sink that is given nothing more once it has failed, so that no failure is lost.
#[derive(Drop)]
pub struct Outlet<'a, W: Sink> {
    sink: &'a mut W,
    has_failed: bool,
    ghost can_fail: { IsFalse has_failed → W.failures sink.now < 2 ^ 64 - 1 },
}

impl<'a, W: Sink> Outlet<'a, W> {
    ghost use Rattle.bgp_text.specs.Outlet.{Passes};

    /// A sink to which nothing was given yet.
    pub fn new(sink: &'a mut W) -> Outlet<'a, W>
        requires { W.failures sink.old < u64.MAX }
        ensures same { result.sink.ghost_name ≡ sink.entry.ghost_name }
        ensures now { result.sink.now ≡ sink.old }
        ensures fresh { IsFalse result.has_failed }
    {
        Outlet {
            sink,
            has_failed: false,
        }
    }

    /// Gives octets to the sink, all of them unless it fails.
    pub fn give(&mut self, octets: &[u8])
        ensures { Passes self.old self.new [] octets.now [] }
    {
        if !self.has_failed && write_all(self.sink, octets).is_err() {
            self.has_failed = true;
        }
    }

    /// The sink, as the last call left it.
    pub fn into_sink(self) -> &'a mut W
        ensures { result ≡ self.entry.sink }
    {
        self.sink
    }

    /// Whether the sink has failed.
    pub fn has_failed(&self) -> bool
        ensures { result ≡ self.now.has_failed }
    {
        self.has_failed
    }
}
