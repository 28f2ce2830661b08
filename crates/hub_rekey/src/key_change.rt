//! Changes a party's key in a store.
ghost use Rattle.std.specs.Prelude.{◌≡◌, true};
ghost use Rattle.hub_parties.specs.Key.{is_party_key};
ghost use Rattle.hub_store.specs.Calls.{Fails};
ghost use Rattle.hub_law.specs.HubRules.Laws.{SoundHub};
ghost use Rattle.hub_rekey.specs.KeyChange.{Rekeys};
ghost use Rattle.hub_rekey.specs.KeyChange as spec;

use gs1_ids::Gln;
use hub_parties::Key;
use hub_register::Register;
use hub_store::{Store, StoreFault};
use hub_tables::{Change, HubRow, KeyRow};

/// The party whose key is changed.
#[derive(Clone, Copy, Debug, PartialEq, Eq)]
pub enum KeyOwner {
    /// The retailer.
    Retailer,
    /// The supplier with this GLN.
    Supplier(Gln),
}

/// Whether a key was changed.
#[derive(Clone, Copy, Debug, PartialEq, Eq)]
pub enum Rekeyed {
    /// The key is changed.
    Done,
    /// The hub has no such supplier.
    Unknown,
}

// Returns the change that gives a party of this register the key, or `None` if it has no such party.
fn change_of(register: &Register, owner: &KeyOwner, key: Key) -> Option<Change>
    ensures value { result ≡ spec.change_of register.now owner.now key }
    ensures valid { is_party_key key ≡ true }
{
    // This contract says that the key is one.
    let _bytes = key.bytes();
    match owner {
        KeyOwner::Retailer => Some(Change::SetHub(HubRow {
            hub: *register.hub(),
            retailer: *register.retailer(),
            key,
        })),
        KeyOwner::Supplier(gln) => {
            register.supplier(gln)?;
            Some(Change::SetKey(KeyRow {
                supplier: *gln,
                key,
            }))
        }
    }
}

/// Changes the key of one party, in one commit. It does not ask for the old key: anyone who can open the store can do
/// this.
///
/// # Errors
///
/// Returns the store's fault. The store then holds what it held before, but once it is opened again it may have either
/// key.
pub fn rekey<S: Store>(store: &mut S, owner: &KeyOwner, key: Key) -> Result<Rekeyed, StoreFault>
    ensures rekeys { (S.honest store.old → SoundHub (S.content store.old)) →
        Rekeys S.Store store.old store.new owner.now key result }
    ensures fails { (S.honest store.old → SoundHub (S.content store.old)) →
        Fails S.plain (S.broken store.old) (S.broken store.new) result }
{
    let register = store.register()?;
    let Some(change) = change_of(&register, owner, key) else {
        return Ok(Rekeyed::Unknown);
    };
    store.commit(&[change])?;
    Ok(Rekeyed::Done)
}
