//! Gives each connection its moment: the one that is given, or the current moment of a clock.
ghost use Rattle.std.specs.Prelude.{◌≡◌, false};
ghost use Rattle.std.specs.Time.{system_time_nanos};
ghost use Rattle.hub_serve.specs.Moments.{moment_at};

use crate::connections::Moments;
use edi_envelope::Moment;
use std::marker::Model;
use std::time::{Clock, SystemTime};

// Rounds a time down to a moment. `None` past the last moment.
fn moment_of(time: SystemTime) -> Option<Moment>
    ensures { result ≡ moment_at (system_time_nanos time) }
{
    let since = time.duration_since(SystemTime::UNIX_EPOCH).ok()?;
    Moment::new(since.as_secs())
}

/// Asks a clock for the moment. `None` if it fails, or is past the last moment.
pub fn moment_now<C: Clock>(clock: &C) -> Option<Moment> {
    moment_of(SystemTime::now(clock).ok()?)
}

/// The moments of a clock, one at each call.
#[derive(Drop)]
pub struct ClockMoments<'c, C> {
    clock: &'c C,
    failed: bool,
}

impl<'c, C> Model for ClockMoments<'c, C> {
    ghost use Rattle.std.specs.Prelude.{Bool};

    ghost Value = { Bool };

    ghost view = { λ m. m.failed };
}

impl<'c, C> ClockMoments<'c, C> {
    /// Makes the moments of a clock that was not asked yet.
    pub fn new(clock: &'c C) -> Self
        ensures { result ≡ false }
    {
        ClockMoments {
            clock,
            failed: false,
        }
    }

    /// Whether the clock has failed, or is past the last moment.
    pub fn has_failed(&self) -> bool
        ensures { result ≡ self.now }
    {
        self.failed
    }
}

impl<'c, C: Clock> Moments for ClockMoments<'c, C> {
    ghost failed = { λ m. m };

    fn next(&mut self) -> Option<Moment> {
        let moment = moment_now(self.clock);
        self.failed = self.failed || moment.is_none();
        moment
    }
}

/// The same moment for each connection, if one is given; otherwise the moments of a clock.
#[derive(Drop)]
pub struct NamedOr<M> {
    named: Option<Moment>,
    clock: M,
}

impl<M> Model for NamedOr<M> {
    ghost use Rattle.std.specs.Prelude.{ℕ, Option};

    ghost Value = { Option ℕ × M };

    ghost view = { λ m. (m.named, m.clock) };
}

impl<M> NamedOr<M> {
    /// Gives this moment each time, or else the moments of this clock.
    pub fn new(named: Option<Moment>, clock: M) -> Self
        ensures { result ≡ (named, clock) }
    {
        NamedOr { named, clock }
    }

    /// Returns the clock.
    pub fn clock(&self) -> &M
        ensures { result.now ≡ self.now.1 }
    {
        &self.clock
    }
}

impl<M: Moments> Moments for NamedOr<M> {
    ghost use Rattle.std.specs.Prelude.{◌≡◌, ◌||◌, Some, IfSome, is_none};
    ghost use Rattle.hub_serve.specs.Connections.{TakesMoment};
    ghost use Rattle.hub_serve.specs.Moments.{coming_of};

    ghost coming = { λ m. coming_of m.0 (M.coming m.1) };

    ghost failed = { λ m. M.failed m.1 };

    // Without a given moment, the clock is asked at each call.
    fn next(&mut self) -> Option<Moment>
        ensures takes { TakesMoment (coming_of self.old.0 (M.coming self.old.1))
            (coming_of self.new.0 (M.coming self.new.1)) result }
        ensures flag { M.failed self.new.1 ≡ (M.failed self.old.1 || is_none result) }
        ensures named { IfSome self.old.0 (λ moment. result ≡ Some moment) }
        ensures stays { self.new.0 ≡ self.old.0 }
    {
        match self.named {
            Some(moment) => Some(moment),
            None => self.clock.next(),
        }
    }
}
