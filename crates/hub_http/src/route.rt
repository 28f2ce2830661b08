//! Defines the seven routes.
ghost use Rattle.std.specs.Prelude.{◌≡◌};
ghost use Rattle.hub_http.specs.Route as spec;

use hub_core::{Role, number_of};

/// The route of a path: what is asked for, except for the parts in braces and the body.
#[derive(Clone, Copy, Debug, PartialEq, Eq)]
pub enum Route {
    /// `/p/{gln}/interchanges`: an upload.
    Interchanges,
    /// `/p/{gln}/mail/after/{n}`: the list of mailbox entries above a number.
    MailAfter,
    /// `/p/{gln}/mail/item/{n}`: the mailbox entry with a number.
    MailItem,
    /// `/p/{gln}/mail/item/{n}/taken`: to mark the entry with a number as taken.
    MailTaken,
    /// `/p/{gln}/status`: one's own status.
    Status,
    /// `/p/{gln}/status/{supplier}`: the status of a supplier.
    StatusOf,
    /// `/p/{gln}/cancellations`: a cancellation.
    Cancellations,
}

impl Route {
    /// Whether the method is POST, and not GET.
    pub(crate) fn is_post(self) -> bool
        ensures { result ≡ spec.is_post self }
    {
        matches!(
            self,
            Route::Interchanges | Route::MailTaken | Route::Cancellations
        )
    }

    /// Returns the method.
    pub(crate) fn method(self) -> &'static [u8]
        ensures { result.now ≡ spec.method_of self }
    {
        if self.is_post() { b"POST" } else { b"GET" }
    }

    /// Whether a party with this role may ask for it.
    pub(crate) fn is_for(self, role: Role) -> bool
        ensures { result ≡ spec.may_ask role self }
    {
        match role {
            Role::Retailer => matches!(
                self,
                Route::Interchanges | Route::StatusOf | Route::Cancellations
            ),
            Role::Supplier => !matches!(self, Route::StatusOf | Route::Cancellations),
        }
    }

    /// Returns the number for `{n}`, of 1 to 14 digits; 0 on a route without one.
    pub(crate) fn number(self, part: &[u8]) -> Option<u64>
        ensures { result ≡ spec.number_at self part.now }
    {
        match self {
            Route::MailAfter | Route::MailItem | Route::MailTaken => number_of(part),
            Route::Interchanges | Route::Status | Route::StatusOf | Route::Cancellations => Some(0),
        }
    }
}
