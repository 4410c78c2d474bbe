//! Moments as times of the Gregorian calendar.
#![tactic(auto, using(crate::proofs::OutgoingLaws::putting))]

ghost use Rattle.std.specs.Prelude.{◌≡◌, ◌-◌, ◌<◌};
ghost use Rattle.mq_display.specs.Calendar.{date_text, day_of_month, days_before_month, days_before_year, days_of_month, days_of_year, digit, four_digits, is_leap_year, is_plausible, last_begun, month_of, six_digits, time_text, time_words, two_digits, utc_text, year_of};
ghost use Rattle.mq_display.specs.Outgoing.{Puts};

use super::outgoing::Outgoing;
use std::io::Write;

/// A day of the Gregorian calendar.
#[derive(Clone, Copy)]
struct Date {
    year: u64,
    /// From 1 to 12.
    month: u64,
    /// From 1 on.
    day: u64,
}

/// Appends the words on a moment as a time, if the log's records have moments and it is plausible
/// as a time.
pub fn put_time<W: Write>(out: &mut Outgoing<'_, W>, timed: bool, moment: u64)
    ensures { Puts W.contents out.old (time_words timed moment) out.new }
{
    if timed && is_plausible(moment) {
        out.put(" (at ");
        put_utc(out, moment);
        out.put(")");
    }
}

// Whether a moment is from 2000-01-01 to before 2100-01-01.
fn is_plausible(moment: u64) -> bool
    ensures { result ≡ is_plausible moment }
{
    946_684_800_000_000 <= moment && moment < 4_102_444_800_000_000
}

// Appends the time so many microseconds after 1970-01-01 00:00:00 UTC.
fn put_utc<W: Write>(out: &mut Outgoing<'_, W>, moment: u64)
    requires { moment < 4102444800000000 }
    ensures { Puts W.contents out.old (utc_text moment) out.new }
{
    put_date(out, moment / 86_400_000_000);
    out.put(" ");
    put_time_of_day(out, moment / 1_000_000 % 86_400);
    out.put(".");
    put_six_digits(out, moment % 1_000_000);
    out.put(" UTC");
}

// Appends the date of a day.
fn put_date<W: Write>(out: &mut Outgoing<'_, W>, day: u64)
    requires { day < 47482 }
    ensures { Puts W.contents out.old (date_text day) out.new }
{
    let date = date_of(day);
    put_four_digits(out, date.year);
    out.put("-");
    put_two_digits(out, date.month);
    out.put("-");
    put_two_digits(out, date.day);
}

// Appends the time of a day at which so many seconds of it are over.
fn put_time_of_day<W: Write>(out: &mut Outgoing<'_, W>, seconds: u64)
    ensures { Puts W.contents out.old (time_text seconds) out.new }
{
    put_two_digits(out, seconds / 3600);
    out.put(":");
    put_two_digits(out, seconds / 60 % 60);
    out.put(":");
    put_two_digits(out, seconds % 60);
}

// Appends a number's last six decimal digits.
fn put_six_digits<W: Write>(out: &mut Outgoing<'_, W>, number: u64)
    ensures { Puts W.contents out.old (six_digits number) out.new }
{
    put_two_digits(out, number / 10_000);
    put_four_digits(out, number);
}

// Appends a number's last four decimal digits.
fn put_four_digits<W: Write>(out: &mut Outgoing<'_, W>, number: u64)
    ensures { Puts W.contents out.old (four_digits number) out.new }
{
    put_two_digits(out, number / 100);
    put_two_digits(out, number);
}

// Appends a number's last two decimal digits.
fn put_two_digits<W: Write>(out: &mut Outgoing<'_, W>, number: u64)
    ensures { Puts W.contents out.old (two_digits number) out.new }
{
    out.put_bytes(&[digit(number / 10), digit(number)]);
}

// The character of a number's last decimal digit.
fn digit(number: u64) -> u8
    ensures { result ≡ digit number }
{
    b'0' + (number % 10) as u8
}

// The date of a day, the days being numbered from 0, which is 1970-01-01.
#[tactic(auto, unfolding(crate::specs::Calendar::month_of, crate::specs::Calendar::day_of_month, crate::specs::Calendar::days_of_year_before))]
fn date_of(day: u64) -> Date
    requires { day < 47482 }
    ensures year { result.year ≡ year_of day }
    ensures month { result.month ≡ month_of day }
    ensures day { result.day ≡ day_of_month day }
{
    let (year, days) = year_of(day);
    let (month, days) = month_of(year, days);
    Date {
        year,
        month,
        day: days + 1,
    }
}

// The year of a day, and how many days of that year were over before it.
fn year_of(day: u64) -> (u64, u64)
    requires { day < 47482 }
    ensures year { result.0 ≡ year_of day }
    ensures days { result.1 ≡ day - days_before_year (year_of day) }
    ensures within { result.1 < days_of_year (year_of day) }
{
    let mut year = 1970;
    let mut days = day;
    while days >= days_of_year(year) {
        days -= days_of_year(year);
        year += 1;
    }
    (year, days)
}

// The month of a year in which so many days of it are over, and how many days of that month are
// over.
fn month_of(year: u64, days_of_year_before: u64) -> (u64, u64)
    requires { days_of_year_before < days_of_year year }
    ensures month { result.0 ≡ last_begun (days_before_month year) 12 days_of_year_before }
    ensures days { result.1 ≡ days_of_year_before - days_before_month year result.0 }
    ensures within { result.1 < 31 }
{
    let mut month = 1;
    let mut days = days_of_year_before;
    while days >= days_of_month(year, month) {
        days -= days_of_month(year, month);
        month += 1;
    }
    (month, days)
}

// How many days a year has.
#[tactic(auto, unfolding(crate::specs::Calendar::days_of_year))]
fn days_of_year(year: u64) -> u64
    ensures { result ≡ days_of_year year }
{
    if is_leap_year(year) { 366 } else { 365 }
}

// How many days a month of a year has.
#[tactic(auto, unfolding(crate::specs::Calendar::days_of_month))]
fn days_of_month(year: u64, month: u64) -> u64
    ensures { result ≡ days_of_month year month }
{
    match month {
        4 | 6 | 9 | 11 => 30,
        2 if is_leap_year(year) => 29,
        2 => 28,
        _ => 31,
    }
}

// Whether a year is a leap year.
#[tactic(auto, unfolding(crate::specs::Calendar::is_leap_year))]
fn is_leap_year(year: u64) -> bool
    ensures { result ≡ is_leap_year year }
{
    year % 4 == 0 && (year % 100 != 0 || year % 400 == 0)
}
