ghost use Rattle.std.specs.Prelude.{◌≡◌, ◌≤◌, ◌↔◌, IsSome, IfSome};
ghost use Rattle.edi_moment.specs.Moment.{last_moment, date_text, time_text, ClockShows, two_digits as decimals};

use jiff::Timestamp;
use jiff::civil::DateTime;
use jiff::tz::Offset;
use std::marker::Model;

/// A whole second from 1970-01-01T00:00:00Z to 2099-12-31T23:59:59Z.
#[derive(Clone, Copy, Debug, PartialEq, Eq, PartialOrd, Ord)]
pub struct Moment {
    seconds: u64,
}

impl Model for Moment {
    ghost use Rattle.std.specs.Prelude.{ℕ, ◌≤◌};
    ghost use Rattle.edi_moment.specs.Moment.{last_moment};

    ghost Value = { ℕ };

    ghost view = { λ m. m.seconds };

    ghost invariant = { λ m. m.seconds ≤ last_moment };

    ghost inverse = { λ n. record { seconds = n } };
}

impl Moment {
    /// The last moment, 2099-12-31T23:59:59Z, in seconds.
    const LAST: u64 = 4_102_444_799;

    /// Makes the moment this many seconds after 1970-01-01T00:00:00Z; `None` after the last moment.
    pub fn new(seconds: u64) -> Option<Moment>
        ensures valid { IsSome result ↔ (seconds ≤ last_moment) }
        ensures value { IfSome result (λ moment. moment ≡ seconds) }
    {
        if seconds <= Moment::LAST {
            Some(Moment { seconds })
        } else {
            None
        }
    }

    /// Returns the seconds since 1970-01-01T00:00:00Z.
    pub fn seconds(self) -> u64
        ensures value { result ≡ self }
        ensures bound { result ≤ last_moment }
    {
        self.seconds
    }
}

// Returns what a clock in UTC shows.
fn utc(moment: Moment) -> DateTime
    ensures { ClockShows result moment }
{
    let instant = Timestamp::from_second(moment.seconds() as i64).unwrap();
    Offset::UTC.to_datetime(instant)
}

// Returns the last two decimal digits of a number.
fn two_digits(number: u16) -> [u8; 2]
    ensures { result ≡ decimals number }
{
    [b'0' + (number / 10 % 10) as u8, b'0' + (number % 10) as u8]
}

/// Returns the date of a moment in UTC, as YYMMDD.
pub fn date_digits(moment: Moment) -> [u8; 6]
    ensures { result ≡ date_text moment }
{
    let date = utc(moment).date();
    let year = two_digits(date.year() as u16);
    let month = two_digits(date.month() as u16);
    let day = two_digits(date.day() as u16);
    [year[0], year[1], month[0], month[1], day[0], day[1]]
}

/// Returns the time of day of a moment in UTC, as HHMM.
pub fn time_digits(moment: Moment) -> [u8; 4]
    ensures { result ≡ time_text moment }
{
    let time = utc(moment).time();
    let hour = two_digits(time.hour() as u16);
    let minute = two_digits(time.minute() as u16);
    [hour[0], hour[1], minute[0], minute[1]]
}
