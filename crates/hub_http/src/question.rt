//! Makes the question that is asked of the hub.
ghost use Rattle.std.specs.Prelude.{◌≡◌, ◌≢◌, None, IfOk, IsOk, OnErr};
ghost use Rattle.hub_core.specs.Steps.{IsNoJoin};
ghost use Rattle.hub_http.specs.Question as spec;
ghost use Rattle.hub_http.specs.Wording.{asked_as};
ghost use Rattle.hub_core.specs.HubTexts.Cancel.{cancel_of};

use crate::asked::Asked;
use crate::refusal::Refusal;
use crate::route::Route;
use edi_base::{Items, MemoryFault};
use gs1_ids::Gln;
use hub_core::{Cancel, Request, read_cancel};
use std::alloc::Global;

// Returns the request, with the cancellation in the body if there has to be one.
fn request_for(
    route: Route,
    part: &[u8],
    number: u64,
    body: Items<u8>,
    cancel: Option<Cancel>,
) -> Result<Request, Refusal>
    ensures value { (route ≡ Route.Cancellations → cancel ≡ cancel_of body) →
        result ≡ spec.request_for route part.now number body }
    ensures no_join { IfOk result IsNoJoin }
{
    match route {
        Route::Interchanges => Ok(Request::Upload(body)),
        Route::MailAfter => Ok(Request::MailAfter(number)),
        Route::MailItem => Ok(Request::MailItem(number)),
        Route::MailTaken => Ok(Request::MailTaken(number)),
        Route::Status => Ok(Request::Status),
        Route::StatusOf => Ok(Request::StatusOf(Gln::parse(part).ok_or(Refusal::Unknown)?)),
        Route::Cancellations => match cancel {
            Some(cancel) => Ok(Request::Cancel(cancel)),
            None => Err(Refusal::BadRequest),
        },
    }
}

// Returns the cancellation in a body, if the route needs one.
fn cancel_in(alloc: Global, route: Route, body: &[u8]) -> Result<Option<Cancel>, MemoryFault>
    ensures value { IfOk result (λ cancel. route ≡ Route.Cancellations → cancel ≡ cancel_of body.now) }
    ensures memory { OnErr result ((route ≡ Route.Cancellations) × (cancel_of body.now ≢ None)) }
{
    match route {
        Route::Cancellations => read_cancel(alloc, body),
        _ => Ok(None),
    }
}

/// Returns what is asked of the hub, with the body of the request, or `None` if it breaks off; or why nothing is asked.
/// A refusal takes no memory.
pub(crate) fn request_of(
    alloc: Global,
    asked: &Asked<'_>,
    body: Option<Items<u8>>,
) -> Result<Result<Request, Refusal>, MemoryFault>
    ensures value { IfOk result (λ request. request ≡ spec.request_with (asked_as asked.now) body) }
    ensures memory { OnErr result (IsOk (spec.request_with (asked_as asked.now) body)) }
    ensures no_join { IfOk result (λ request. IfOk request IsNoJoin) }
{
    let Some(body) = body else {
        return Ok(Err(Refusal::BadRequest));
    };
    let cancel = cancel_in(alloc, asked.route, body.as_slice())?;
    Ok(request_for(asked.route, asked.part, asked.number, body, cancel))
}
