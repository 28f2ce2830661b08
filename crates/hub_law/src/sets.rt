//! States laws of sound tables as sets of rows, each as the contract of a function without a body.
ghost use Rattle.std.specs.Prelude.{◌≡◌, ℕ, List};
ghost use Rattle.hub_parties.specs.declared.row.SupplierRow.{SupplierRow};
ghost use Rattle.hub_tables.specs.Register.{suppliers_of};
ghost use Rattle.hub_tables.specs.Sets.{Rising, SameRows};
ghost use Rattle.hub_tables.specs.Tables.{Tables, view};
ghost use Rattle.hub_rules.specs.Laws.{PartiesRise, SoundHub, SoundUnder};
ghost use Rattle.hub_rules.specs.Sound.{Sound};

/// What a supplier sees of sound tables depends only on the set of its rows: if two hubs have the same rows of it, it
/// sees the same in both, in whatever order the rows arrived, whoever else has rows, and whatever the registers are.
/// All rows of sound tables are in the order of their keys, and no key occurs twice. Sound tables that hold a register
/// meet the conditions for this.
pub fn views_are_sets()
    ensures views { (gln : List ℕ) (suppliers others : List SupplierRow) (t u : Tables) →
        Sound suppliers t → PartiesRise t → Sound others u → PartiesRise u →
        SameRows (view gln t) (view gln u) → view gln t ≡ view gln u }
    ensures rise { (suppliers : List SupplierRow) (t : Tables) → SoundUnder suppliers t →
        PartiesRise t → Rising t }
    ensures held { (t : Tables) → SoundHub t → SoundUnder (suppliers_of t) t × PartiesRise t }
{}
