//! Opens the body of an upload as it is read.
ghost use Rattle.std.specs.Prelude.{◌≡◌, ◌≢◌, ◌≤◌, ◌-◌, ◌++◌, ◌↔◌, ℕ, List, length, true, Err, IfOk, IfSome};
ghost use Rattle.edi_base.specs.Source.{TakesAtMost};
ghost use Rattle.edi_envelope.specs.Opened.{opened, Opens};
ghost use Rattle.http_messages.specs.Body.{body_in, TakesExactly};
ghost use Rattle.hub_http.specs.Asked.{longest_body};
ghost use Rattle.hub_http.specs.Upload.{IsUpload};

use edi_base::{ReadFault, Source};
use edi_envelope::{Interchange, OpenFault, open_lent};
use edi_tokens::{Lender, TokenFault};
use std::alloc::Global;

/// What a text was opened as, or why it has no interchange.
pub(crate) type OpenResult = Result<Interchange, OpenFault>;

// Whether a read failed.
fn is_unread(upload: &OpenResult) -> bool
    ensures { (result ≡ true) ↔ (upload.now ≡ Err (OpenFault.Token TokenFault.Read)) }
{
    match upload {
        Err(OpenFault::Token(TokenFault::Read)) => true,
        _ => false,
    }
}

/// Opens a body of `size` bytes, whose first bytes were read with the head, one segment after another as it is read:
/// the body is not kept. After a fault the rest is read and dropped. `None` if the source ends before the body does.
pub(crate) fn open_body<R: Source>(
    alloc: Global,
    reader: &mut R,
    front: &[u8],
    size: usize,
) -> Result<Option<OpenResult>, ReadFault>
    requires { size ≤ longest_body }
    ensures body { IfOk result (λ upload. IfSome (R.remaining reader.old) (λ left.
        IsUpload upload (body_in size (front.now ++ left)))) }

    // Even if nothing is known of the bytes, the result is what some bytes open as, and not a failed read.
    ensures some { IfOk result (λ upload.
        IfSome upload (λ upload. (bytes : List ℕ) × Opens upload (opened bytes))) }
    ensures unread { IfOk result (λ upload.
        IfSome upload (λ upload. upload ≢ Err (OpenFault.Token TokenFault.Read))) }

    // Whatever the result, no more was taken from the reader than the body still needed.
    ensures front { TakesAtMost (R.remaining reader.old) (R.remaining reader.new) (size - length front.now) }

    // After a whole body exactly that was taken, and if memory is refused, nothing.
    ensures whole { IfOk result (λ upload. IfSome upload (λ _. TakesExactly (R.remaining reader.old)
        (R.remaining reader.new) (size - length front.now))) }
    ensures memory { result ≡ Err ReadFault.Memory → R.remaining reader.new ≡ R.remaining reader.old }
    ensures read { result ≡ Err ReadFault.Read → R.failed reader.new ≡ true }
    ensures kept { result ≢ Err ReadFault.Read → R.failed reader.new ≡ R.failed reader.old }
{
    let Ok(mut lender) = Lender::of_size(alloc, front, size) else {
        return Err(ReadFault::Memory);
    };
    let upload = open_lent(alloc, &mut lender, reader);
    if is_unread(&upload) {
        return Err(ReadFault::Read);
    }
    let Ok(missing) = lender.skip_rest(reader) else {
        return Err(ReadFault::Read);
    };
    if missing == 0 {
        return Ok(Some(upload));
    }
    Ok(None)
}
