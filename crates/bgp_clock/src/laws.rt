//! Laws of times, each on a function that does nothing: a text tells the right time.

ghost use Rattle.std.specs.Prelude.{◌≡◌, ◌<◌, ◌^◌, ℕ, Option, Some};
ghost use Rattle.bgp_clock.specs.When.{IsDated, micro_in, second_in, when_text};

/// States that the date and the time of day of each second of 32 bits are in the calendar, and that
/// the calendar counts that second for them.
pub fn each_second_has_its_date()
    ensures { (second : ℕ) → second < 2 ^ 32 → IsDated second }
{}

/// States that a text, read back by the calendar, is the second, and its fraction the microseconds.
pub fn each_second_reads_back()
    ensures second { (second : ℕ) (micro : Option ℕ) → second < 2 ^ 32
        → second_in (when_text second micro) ≡ second }
    ensures fraction { (second micro : ℕ) → micro < 1000000
        → micro_in (when_text second (Some micro)) ≡ micro }
{}
