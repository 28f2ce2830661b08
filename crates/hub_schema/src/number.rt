//! Defines the numbers that SQL can store.
ghost use Rattle.std.specs.Prelude.{◌≡◌, ◌<◌, ◌≤◌, ◌^◌, pos};
ghost use Rattle.std.specs.Option.{IfSome, IfNone};
ghost use Rattle.sqlite_value.specs.Value.{owned};
ghost use Rattle.sqlite_value.specs.declared.value.Value.TheVariants.{Int};

use sqlite::types::ValueRef;
use std::marker::Model;

/// A number that SQL can store: below 2^63.
#[derive(Clone, Copy, Debug)]
pub struct StoredNumber {
    number: u64,
}

impl Model for StoredNumber {
    ghost use Rattle.std.specs.Prelude.{ℕ, ◌<◌, ◌^◌};

    ghost Value = { ℕ };

    ghost view = { λ n. n.number };

    ghost invariant = { λ n. n.number < 2 ^ 63 };

    ghost inverse = { λ n. record { number = n } };
}

impl StoredNumber {
    /// Makes a number that can be stored; `None` from 2^63.
    pub fn of(number: u64) -> Option<StoredNumber>
        ensures some { IfSome result (λ stored. stored ≡ number) }
        ensures none { IfNone result (2 ^ 63 ≤ number) }
    {
        if number < 0x8000_0000_0000_0000 {
            Some(StoredNumber { number })
        } else {
            None
        }
    }

    /// Returns the number as a parameter.
    pub fn value<'a>(self) -> ValueRef<'a>
        ensures value { owned result ≡ Int (pos self) }
        ensures low { self < 2 ^ 63 }
    {
        ValueRef::Int(self.number as i64)
    }
}
