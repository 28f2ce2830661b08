//! Laws of what is shown, each the contract of a function without a body.
ghost use Rattle.std.specs.Prelude.{◌≡◌, ℕ, true, false, List, Option};
ghost use Rattle.hub_rules.specs.Laws.{SoundHub};
ghost use Rattle.hub_store.specs.Clean.{are_clean};
ghost use Rattle.hub_tables.specs.Sets.{Rising};
ghost use Rattle.hub_tables.specs.Tables.{Tables};
ghost use Rattle.hub_sound.specs.Finding.{RowKey};
ghost use Rattle.hub_sound.specs.Goods.{TellsOfSupplier, TellsSettled, goods_in};
ghost use Rattle.hub_sound.specs.Showing.{PassesChecks, ShowsUnclean, ShowsUnsound};
ghost use Rattle.hub_sound.specs.declared.finding.Finding.{Finding};
ghost use Rattle.hub_sound.specs.declared.finding.RowKind.{RowKind};

/// A row that shows that tables are not clean is a reason why they are not.
pub fn unclean_rows_show()
    ensures { (t : Tables) (kind : RowKind) (key : RowKey) → ShowsUnclean t kind key → are_clean t ≡ false }
{}

/// Clean tables of which a row shows it are not sound.
pub fn shown_tables_are_unsound()
    ensures { (t : Tables) (kind : RowKind) (key : RowKey) →
        are_clean t ≡ true → ShowsUnsound t kind key → ¬ SoundHub t }
{}

/// Clean tables of which all was checked are sound: what each supplier sees is, also one that no row names.
pub fn checked_tables_are_sound()
    ensures { (t : Tables) (glns : List (List ℕ)) →
        Rising t → are_clean t ≡ true → PassesChecks t glns → SoundHub t }
{}

/// What is found of the lines of a supplier and what is on its pallets, one pallet after another, is so of what it sees.
pub fn gathered_goods_are_the_suppliers()
    ensures { (gln : List ℕ) (t : Tables) (found : Option Finding) →
        Rising t → TellsSettled (goods_in gln t) found → TellsOfSupplier gln t found }
{}
