//! Writes moments in RFC 3339 format.
ghost use Rattle.std.specs.Prelude.{◌≡◌};
ghost use Rattle.edi_moment.specs.Moment.{two_digits as decimals};
ghost use Rattle.hub_journal.specs.Moment as spec;

use edi_moment::{Moment, date_digits, time_digits};

/// The first second of the year 2000.
const YEAR_2000: u64 = 946_684_800;

// Returns the last two decimal digits of a number.
fn two_digits(number: u64) -> [u8; 2]
    ensures { result ≡ decimals number }
{
    [b'0' + (number / 10 % 10) as u8, b'0' + (number % 10) as u8]
}

// Returns the first two digits of the year.
fn century(moment: Moment) -> [u8; 2]
    ensures { result ≡ spec.century moment }
{
    if moment.seconds() < YEAR_2000 {
        *b"19"
    } else {
        *b"20"
    }
}

#[tactic(auto, unfolding(crate::specs::Moment::rfc3339))]
/// Returns a moment in UTC, as `2026-11-28T18:30:00Z`.
pub(crate) fn rfc3339(moment: Moment) -> [u8; 20]
    ensures { result ≡ spec.rfc3339 moment }
{
    let century = century(moment);
    let date = date_digits(moment);
    let time = time_digits(moment);
    let second = two_digits(moment.seconds() % 60);
    [
        century[0], century[1], date[0], date[1], b'-', date[2], date[3], b'-', date[4], date[5],
        b'T', time[0], time[1], b':', time[2], time[3], b':', second[0], second[1], b'Z',
    ]
}
