//! The date of a day, counted from 1 January 1970 (the Gregorian calendar).

ghost use Rattle.std.specs.Prelude.{◌≡◌, ◌≤◌};
ghost use Rattle.httpdate.specs.Calendar.{is_leap_year, days_in_month, days_in_year};
ghost use Rattle.bgp_clock.specs.Civil.{month_of, year_of};

/// Checks whether a year has a leap day.
fn is_leap_year(year: u32) -> bool
    ensures { result ≡ is_leap_year year }
{
    year % 4 == 0 && (year % 100 != 0 || year % 400 == 0)
}

/// Returns how many days a year has.
fn days_in_year(year: u32) -> u32
    ensures { result ≡ days_in_year year }
{
    if is_leap_year(year) { 366 } else { 365 }
}

/// Returns how many days a month has.
fn days_in_month(year: u32, month: u32) -> u32
    ensures { result ≡ days_in_month year month }
{
    match month {
        2 => { if is_leap_year(year) { 29 } else { 28 } }
        4 | 6 | 9 | 11 => 30,
        _ => 31,
    }
}

/// Returns the year of a day, and how many days of that year have passed.
pub(crate) fn year_of(days: u32) -> (u32, u32)
    ensures year { result.0 ≡ (year_of days).0 }
    ensures days { result.1 ≡ (year_of days).1 }
    ensures fewer { result.1 ≤ days }
{
    let mut rest = days;
    for year in 1970..2106 {
        let length = days_in_year(year);
        if rest < length {
            return (year, rest);
        }
        rest -= length;
    }
    (2106, rest)
}

/// Returns the month of a day of this year, and how many days of that month have passed.
pub(crate) fn month_of(year: u32, days: u32) -> (u32, u32)
    ensures month { result.0 ≡ (month_of year days).0 }
    ensures days { result.1 ≡ (month_of year days).1 }
    ensures fewer { result.1 ≤ days }
{
    let mut rest = days;
    for month in 1..12 {
        let length = days_in_month(year, month);
        if rest < length {
            return (month, rest);
        }
        rest -= length;
    }
    (12, rest)
}
