//! States laws of founding, each as the contract of a function without a body.
ghost use Rattle.std.specs.Prelude.{◌≡◌, []};
ghost use Rattle.hub_parties.specs.Rows.{RegisterRows, IsRegister};
ghost use Rattle.hub_founding.specs.Fits.{founded_beside, KeepsOtherRows};
ghost use Rattle.hub_tables.specs.Register.{HoldsRegister, register_of, founded};
ghost use Rattle.hub_tables.specs.Tables.{Tables, empty};

/// If a register is founded in tables that have no rows of a register, the tables hold that register, and all other
/// rows stay the same. In empty tables, the result is what founding the register alone gives.
pub fn rows_beside_stay()
    ensures holds { (register : RegisterRows) (t : Tables) → IsRegister register → t.hubs ≡ [] →
        t.keys ≡ [] → t.prefixes ≡ [] →
        HoldsRegister (founded_beside t register) }
    ensures same { (register : RegisterRows) (t : Tables) → IsRegister register → t.hubs ≡ [] →
        t.keys ≡ [] → t.prefixes ≡ [] →
        register_of (founded_beside t register) ≡ register }
    ensures stays { (register : RegisterRows) (t : Tables) → KeepsOtherRows t (founded_beside t register) }
    ensures nothing { (register : RegisterRows) → founded_beside empty register ≡ founded register }
{}
