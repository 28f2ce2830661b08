//! Changes the key of one party.
use crate::fault::BeginFault;
use crate::keys::key_at;
use crate::tasks::status_if_written;
use edi_base::OfWrite;
use hub_app::RekeyWords;
use hub_commands::{KeyOutcome, key_change_run};
use hub_parties::Key;
use hub_rekey::{KeyOwner, Rekeyed, rekey};
use hub_store::Store;

/// A new key for one party.
#[derive(Drop)]
pub(crate) struct KeyChange<'a> {
    /// The path of the database's file.
    pub(crate) db: &'a str,
    /// Whose key is changed.
    pub(crate) owner: KeyOwner,
    /// The new key.
    pub(crate) key: Key,
}

// Returns whose key the words name.
fn owner_of(words: &RekeyWords<'_>) -> KeyOwner {
    match words.supplier {
        Some(gln) => KeyOwner::Supplier(gln),
        None => KeyOwner::Retailer,
    }
}

/// Reads the key, and returns the change that the words ask for, or `None` if the file holds no key.
pub(crate) fn change_of<'a>(
    rt: &HostRuntime,
    words: &RekeyWords<'a>,
) -> Result<Option<KeyChange<'a>>, BeginFault> {
    let text = key_at(rt, words.key_file)?;
    let Some(key) = Key::parse(text.as_slice()) else {
        return Ok(None);
    };
    Ok(Some(KeyChange {
        db: words.db,
        owner: owner_of(words),
        key,
    }))
}

/// Prints what became of the key, and returns the exit status.
pub(crate) fn print_outcome(rt: &HostRuntime, outcome: KeyOutcome) -> Result<u8, BeginFault> {
    let mut out = OfWrite::new(rt.stdout());
    let status = key_change_run(outcome, &mut out);
    status_if_written(&out, status)
}

/// Changes the key in a store, and prints the outcome.
pub(crate) fn change_in<S: Store>(
    rt: &HostRuntime,
    store: &mut S,
    change: KeyChange<'_>,
) -> Result<u8, BeginFault> {
    let KeyChange { db: _, owner, key } = change;
    let outcome = match rekey(store, &owner, key)? {
        Rekeyed::Done => KeyOutcome::Done,
        Rekeyed::Unknown => KeyOutcome::Unknown,
    };
    print_outcome(rt, outcome)
}
