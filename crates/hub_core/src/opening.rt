//! Opens an upload.
ghost use Rattle.std.specs.Prelude.{◌≡◌, IfOk, OnErr};
ghost use Rattle.std.specs.Option.{IfSome, IfNone};
ghost use Rattle.edi_envelope.specs.Opened.{code_text};
ghost use Rattle.hub_law.specs.Opening.{told_as, interchange_in};
ghost use Rattle.hub_core.specs.Opened as spec;
ghost use Rattle.hub_core.specs.Opened.{HasCode, OfMemory, RanOut, Sufficed};

use edi_base::MemoryFault;
use edi_envelope::{EnvelopeFault, Interchange, OpenFault, open};
use edi_tokens::{TokenFault, read_all};
use std::alloc::{AllocError, Global};

// Returns the code of a fault. Only out of memory has none.
fn refusal_code(fault: OpenFault) -> Option<&'static str>
    ensures some { IfSome result (λ code. (code.now ≡ code_text fault) × HasCode fault) }
    ensures none { IfNone result (OfMemory fault) }
{
    match fault {
        OpenFault::Token(TokenFault::Memory) | OpenFault::Envelope(EnvelopeFault::Memory) => None,
        _ => Some(fault.code()),
    }
}

/// Returns an opened upload, or the code of its fault, if there was enough memory.
pub(crate) fn with_code(
    upload: Result<Interchange, OpenFault>,
) -> Result<Result<Interchange, &'static str>, MemoryFault>
    ensures told { IfOk result (λ coded. spec.with_code coded ≡ told_as upload) }
    ensures sufficed { IfOk result (λ _. Sufficed upload) }
    ensures ran_out { OnErr result (RanOut upload) }
{
    match upload {
        Ok(interchange) => Ok(Ok(interchange)),
        Err(fault) => {
            let code = refusal_code(fault).ok_or(AllocError)?;
            Ok(Err(code))
        }
    }
}

// Returns the interchange in these bytes, or the first fault of their text or, if that is valid, of their envelope.
fn open_bytes(alloc: Global, bytes: &[u8]) -> Result<Interchange, OpenFault>
    ensures { Sufficed result → interchange_in bytes.now ≡ told_as result }
{
    let tokens = read_all(alloc, bytes)?;
    let interchange = open(alloc, tokens)?;
    Ok(interchange)
}

/// Returns the interchange in the bytes of an upload, or the code of their fault.
pub(crate) fn open_upload(
    alloc: Global,
    upload: &[u8],
) -> Result<Result<Interchange, &'static str>, MemoryFault>
    ensures { IfOk result (λ opened. interchange_in upload.now ≡ spec.with_code opened) }
{
    with_code(open_bytes(alloc, upload))
}
