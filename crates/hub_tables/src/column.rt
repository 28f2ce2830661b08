//! Stores the cases of an enum in a column, as numbers.
ghost use Rattle.std.specs.Prelude.{◌≡◌, ◌==◌, true, false};
ghost use Rattle.std.specs.List.{list_any};
ghost use Rattle.std.specs.Option.{IfNone, IfSome};

use std::marker::Model;

/// An enum whose cases are stored in a column, each as a number.
pub trait Case: Sized + 'static {
    ghost use Rattle.std.specs.Prelude.{ℕ, ◌<◌, List};

    ghost number: { Self → ℕ };

    /// The cases that a row may have.
    ghost every: { List Self };

    /// Each number fits in one byte.
    ghost small: { (case : Self) → number case < 256 };

    /// Returns the number of the case.
    fn code(self) -> u8
        ensures { result ≡ number self };

    /// Returns the cases that a row may have.
    fn all() -> &'static [Self]
        ensures { result.now ≡ every };
}

/// A case in a row. Contracts see only its number, so they can also describe a stored row whose number belongs to no
/// case.
#[derive(Debug, Drop)]
pub struct Column<C: Case> {
    case: C,
}

impl<C: Case> Model for Column<C> {
    ghost use Rattle.std.specs.Prelude.{ℕ};

    ghost Value = { ℕ };

    ghost view = { λ column. C.number column.case };
}

impl<C: Case + Copy> Column<C> {
    /// Makes the column that holds a case.
    pub fn of(case: C) -> Self
        ensures { result ≡ C.number case }
    {
        Column { case }
    }

    /// Makes the column from a number; `None` if no case has this number.
    pub fn with_code(code: u64) -> Option<Self>
        ensures some { IfSome result (λ column. column ≡ code) }
        ensures right { IfSome result (λ column. list_any (λ case. column == C.number case) C.every ≡ true) }
        ensures none { IfNone result (list_any (λ case. code == C.number case) C.every ≡ false) }
    {
        for case in C::all() {
            if u64::from(case.code()) == code {
                return Some(Column::of(*case));
            }
        }
        None
    }

    /// Returns the number of the case.
    pub fn code(&self) -> u8
        ensures { result ≡ self.now }
    {
        self.case.code()
    }

    /// Returns the case.
    pub fn case(&self) -> C
        ensures { C.number result ≡ self.now }
    {
        self.case
    }
}
