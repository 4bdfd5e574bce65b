//! Moments: whole seconds of UTC.
ghost use Rattle.std.specs.Prelude.{◌≡◌, ◌+◌, ◌/◌, ◌%◌, ◌↔◌, ◌<◌, IsSome, IfSome, Some, option_map, unwrap_or, IsAscii};
ghost use Rattle.lei_shapes.specs.Moment.{IsMoment, IsMomentRead, read_moment, IsMomentText, IsDayOf, day_of, second_of_day};
ghost use Rattle.lei_shapes.specs.Clock.{day_at, march_count, moment_text, month_at, written_moment, year_at};

use jiff::Timestamp;
use std::marker::Model;

// 0001-01-01T00:00:00Z.
const FIRST: i64 = -62_135_596_800;

// 9998-12-31T23:59:59Z.
const LAST: i64 = 253_370_764_799;

/// A whole second from 0001-01-01T00:00:00Z to 9998-12-31T23:59:59Z. Clauses see the number of seconds since
/// 1970-01-01T00:00:00Z, which is negative before it.
#[derive(Clone, Copy, Debug, PartialEq, Eq, PartialOrd, Ord, Hash)]
pub struct Moment {
    seconds: i64,
}

impl Model for Moment {
    ghost use Rattle.std.specs.Prelude.{ℤ};
    ghost use Rattle.lei_shapes.specs.Moment.{IsMoment};

    ghost Value = { ℤ };

    ghost view = { λ m. m.seconds };

    ghost invariant = { λ m. IsMoment m.seconds };

    ghost inverse = { λ s. record { seconds = s } };
}

impl Moment {
    /// The moment this many seconds after 1970-01-01T00:00:00Z, or before it if the number is negative.
    pub fn of(seconds: i64) -> Option<Moment>
        ensures some { IsSome result ↔ IsMoment seconds }
        ensures value { IfSome result (λ m. m ≡ seconds) }
    {
        if (FIRST..=LAST).contains(&seconds) {
            Some(Moment { seconds })
        } else {
            None
        }
    }

    /// The number of seconds since 1970-01-01T00:00:00Z, which is negative before it.
    pub fn seconds(self) -> i64
        ensures value { result ≡ self }
        ensures moment { IsMoment result }
    {
        self.seconds
    }

    /// The moment of a text that `jiff` reads as a timestamp, rounded down to a whole second.
    pub fn read(text: &str) -> Option<Moment>
        ensures reads { IsMomentRead text.now result }
        ensures value { result ≡ read_moment text.now }
    {
        Moment::read_form(text).map(|found| found.0)
    }

    /// The moment of a text, as `read` returns it, and its printed form if the text isn't in that form. A text in
    /// printed form is recognized by its digits, and isn't parsed.
    pub fn read_form(text: &str) -> Option<(Moment, Option<[u8; 20]>)>
        ensures value { option_map (λ found. found.0) result ≡ read_moment text.now }
        ensures form { IfSome result (λ found. unwrap_or found.1 text.now ≡ moment_text found.0) }
        ensures reads_back { IfSome result
            (λ found. read_moment (unwrap_or found.1 text.now) ≡ Some found.0) }
        ensures ascii { IfSome result (λ found. IfSome found.1 IsAscii) }
    {
        if let Some(moment) = of_form(text) {
            return Some((moment, None));
        }
        let moment = parse_moment(text)?;
        Some((moment, Some(moment.text())))
    }

    /// `YYYY-MM-DDThh:mm:ssZ`.
    pub fn text(self) -> [u8; 20]
        ensures bytes { result ≡ moment_text self }
        ensures civil { IsMomentText self result }
        ensures reads_back { read_moment result ≡ Some self }
        ensures ascii { IsAscii result }
    {
        let (year, month, day) = date_of(self.march_count());
        write_moment(year, month, day, self.second_of_day())
    }

    /// The number of its day in UTC; 1970-01-01 is 0.
    pub fn day(self) -> i32
        ensures value { result ≡ day_of self }
        ensures civil { IsDayOf self result }
    {
        day_number(self.seconds)
    }

    // The days since 1 March of the year 0.
    fn march_count(self) -> u32
        ensures value { result ≡ march_count (day_of self) }
        ensures moment { IsMoment self }
        ensures few { result < 3_652_000 }
    {
        (self.seconds.div_euclid(86_400) + 719_468) as u32
    }

    // The seconds since midnight.
    fn second_of_day(self) -> u32
        ensures value { result ≡ second_of_day self }
        ensures few { result < 86_400 }
    {
        self.seconds.rem_euclid(86_400) as u32
    }
}

/// The number of the day in UTC of a moment that is given by its seconds since 1970-01-01T00:00:00Z. That day has the
/// number 0.
pub fn day_number(seconds: i64) -> i32
    requires { IsMoment seconds }
    ensures { result ≡ day_of seconds }
{
    seconds.div_euclid(86_400) as i32
}

// The moment of a text that `jiff` reads.
fn parse_moment(text: &str) -> Option<Moment>
    ensures reads { IsMomentRead text.now result }
    ensures value { result ≡ read_moment text.now }
{
    let instant: Timestamp = text.parse().ok()?;
    Moment::of(instant.as_nanosecond().div_euclid(1_000_000_000) as i64)
}

// The moment whose printed form the text is. The meaning of its digits is only guessed: the printed form of the guess
// decides.
fn of_form(text: &str) -> Option<Moment>
    ensures moment { IfSome result (λ moment. IsMoment moment) }
    ensures form { IfSome result (λ moment. text.now ≡ moment_text moment) }
{
    let Ok(digits) = <[u8; 20]>::try_from(text.as_bytes()) else {
        return None;
    };
    let moment = Moment::of(guess(&digits))?;
    if moment.text() == digits {
        Some(moment)
    } else {
        None
    }
}

// The seconds that a text in printed form represents.
fn guess(text: &[u8; 20]) -> i64 {
    let year = 100 * number(text[0], text[1]) + number(text[2], text[3]);
    let month = number(text[5], text[6]);
    let (year, months) = if month > 2 {
        (year, month - 3)
    } else {
        (year.saturating_sub(1), month + 9)
    };
    let days = 365 * year + year / 4 - year / 100
        + year / 400
        + (153 * months + 2) / 5
        + number(text[8], text[9]);
    let second = 3_600 * number(text[11], text[12])
        + 60 * number(text[14], text[15])
        + number(text[17], text[18]);
    let seconds = 86_400 * u64::from(days) + u64::from(second);
    seconds as i64 - 86_400 * 719_469
}

// The number of two decimal digits.
fn number(tens: u8, ones: u8) -> u32
    ensures { result < 166 }
{
    10 * u32::from(tens % 16) + u32::from(ones % 16)
}

// The year, the month and the day of the date this many days after 1 March of the year 0.
fn date_of(days: u32) -> (u32, u32, u32)
    requires { days < 3_652_000 }
    ensures year { result.0 ≡ year_at days }
    ensures month { result.1 ≡ month_at days }
    ensures day { result.2 ≡ day_at days }
{
    let century = (4 * days + 3) / 146_097;
    let of_century = (4 * days + 3) % 146_097 / 4;
    let year = 100 * century + (4 * of_century + 3) / 1_461;
    let of_year = (4 * of_century + 3) % 1_461 / 4;
    let month = (5 * of_year + 461) / 153;
    let day = (5 * of_year + 461) % 153 / 5 + 1;
    if month > 12 {
        (year + 1, month - 12, day)
    } else {
        (year, month, day)
    }
}

// A date and a second of that day in written form, with `Z` for UTC.
fn write_moment(year: u32, month: u32, day: u32, second: u32) -> [u8; 20]
    requires year { year < 10_000 }
    requires month { month < 100 }
    requires day { day < 100 }
    requires second { second < 86_400 }
    ensures { result ≡ written_moment year month day second }
{
    let (century, year) = ((year / 100) as u8, (year % 100) as u8);
    let (month, day) = (month as u8, day as u8);
    let (hour, minute) = ((second / 3_600) as u8, (second / 60 % 60) as u8);
    let second = (second % 60) as u8;
    [
        tens(century),
        ones(century),
        tens(year),
        ones(year),
        b'-',
        tens(month),
        ones(month),
        b'-',
        tens(day),
        ones(day),
        b'T',
        tens(hour),
        ones(hour),
        b':',
        tens(minute),
        ones(minute),
        b':',
        tens(second),
        ones(second),
        b'Z',
    ]
}

// The two decimal digits of a number below 100.
fn tens(n: u8) -> u8
    requires { n < 100 }
    ensures { result ≡ 48 + n / 10 }
{
    b'0' + n / 10
}

fn ones(n: u8) -> u8
    ensures { result ≡ 48 + n % 10 }
{
    b'0' + n % 10
}
