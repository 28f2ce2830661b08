//! States laws of tables, each as the contract of a function without a body.
ghost use Rattle.std.specs.Prelude.{◌≡◌};
ghost use Rattle.hub_parties.specs.Rows.{RegisterRows, IsRegister};
ghost use Rattle.hub_tables.specs.Register.{HoldsRegister, register_of, founded};
ghost use Rattle.hub_tables.specs.Sets.{Rising, SameRows};
ghost use Rattle.hub_tables.specs.Tables.{Tables};

/// Tables in which the keys of each kind rise are equal if they have the same rows.
pub fn rows_are_a_set()
    ensures { (t u : Tables) → Rising t → Rising u → SameRows t u → t ≡ u }
{}

/// Tables that have only the rows of a register hold exactly that register, and the keys of each kind rise.
pub fn founded_tables_hold_their_register()
    ensures rising { (register : RegisterRows) → IsRegister register → Rising (founded register) }
    ensures holds { (register : RegisterRows) → IsRegister register → HoldsRegister (founded register) }
    ensures same { (register : RegisterRows) → IsRegister register →
        register_of (founded register) ≡ register }
{}
