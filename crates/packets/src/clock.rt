//! The clock of an interface.

ghost use Rattle.std.specs.Prelude.{◌≡◌, ◌/◌, ◌<◌, ◌^◌, SomeIff};
ghost use Rattle.packets.specs.Clock.{ticks_in_second, second_at, micro_in_ticks, micro_at};

/// How the ticks of an interface tell the second and its fraction.
#[derive(Clone, Copy)]
pub(crate) struct Clock {
    /// How many ticks a second has: 10 to this power, or 2 to the power of what it is above 128.
    pub(crate) resolution: u8,
    /// How many seconds are added.
    pub(crate) offset: i64,
}

/// How many ticks a second has, if that is a number of 128 bits.
fn ticks_in_second(resolution: u8) -> Option<u128>
    ensures { SomeIff result (ticks_in_second resolution < 2 ^ 128) (ticks_in_second resolution) }
{
    if resolution < 128 {
        10u128.checked_pow(u32::from(resolution))
    } else {
        2u128.checked_pow(u32::from(resolution - 128))
    }
}

/// The whole seconds of so many ticks.
fn whole_seconds(ticks: u64, resolution: u8) -> u64
    ensures { result ≡ ticks / ticks_in_second resolution }
{
    match ticks_in_second(resolution) {
        Some(power) => (u128::from(ticks) / power) as u64,
        None => 0,
    }
}

/// The whole microseconds in the ticks above the whole seconds of so many.
fn micro_in_ticks(ticks: u64, resolution: u8) -> u32
    ensures { result ≡ micro_in_ticks ticks resolution }
{
    match ticks_in_second(resolution) {
        Some(power) => (u128::from(ticks) % power * 1_000_000 / power) as u32,
        None => 0,
    }
}

impl Clock {
    /// The second, if it is one of 32 bits.
    pub(crate) fn second_at(&self, ticks: u64) -> Option<u32>
        ensures { result ≡ second_at self.now ticks }
    {
        let second = whole_seconds(ticks, self.resolution).checked_add_signed(self.offset)?;
        u32::try_from(second).ok()
    }

    /// The fraction of that second, in whole microseconds: below 1,000,000.
    pub(crate) fn micro_at(&self, ticks: u64) -> u32
        ensures { result ≡ micro_at self.now ticks }
    {
        micro_in_ticks(ticks, self.resolution)
    }
}
