//! States laws about changing a key, each as the contract of a function without a body.
ghost use Rattle.std.specs.Prelude.{◌≡◌, ◌≢◌, true, ℕ, List, IsTrue};
ghost use Rattle.hub_parties.specs.Key.{is_party_key};
ghost use Rattle.hub_tables.specs.Register.{parties_in};
ghost use Rattle.hub_tables.specs.Tables.{Tables, view};
ghost use Rattle.hub_law.specs.HubRules.Laws.{SoundHub};
ghost use Rattle.hub_rekey.specs.KeyChange.{rekeyed};
ghost use Rattle.hub_rekey.specs.declared.key_change.KeyOwner.{KeyOwner};
ghost use Rattle.hub_rekey.specs.declared.key_change.KeyOwner.TheVariants.{Retailer, Supplier};

/// A sound start with a changed key is still one.
pub fn rekeyed_tables_are_sound()
    ensures { (owner : KeyOwner) (key : List ℕ) (t : Tables) →
        IsTrue (is_party_key key) → SoundHub t → SoundHub (rekeyed owner key t) }
{}

/// A supplier whose key is changed sees its rows with only that key changed. No other supplier sees any difference, and
/// if the retailer's key is changed, no supplier does.
pub fn rekeying_keeps_suppliers_apart()
    ensures seen { (gln key : List ℕ) (t : Tables) →
        view gln (rekeyed (Supplier gln) key t) ≡ rekeyed (Supplier gln) key (view gln t) }
    ensures unseen { (gln other key : List ℕ) (t : Tables) → other ≢ gln →
        view other (rekeyed (Supplier gln) key t) ≡ view other t }
    ensures retailers { (gln key : List ℕ) (t : Tables) → view gln (rekeyed Retailer key t) ≡ view gln t }
    ensures parties { (owner : KeyOwner) (key : List ℕ) (t : Tables) →
        parties_in (rekeyed owner key t) ≡ parties_in t }
{}
