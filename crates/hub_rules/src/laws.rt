//! States laws of the rules, each as the contract of a function without a body.
ghost use Rattle.std.specs.Prelude.{◌≡◌, ℕ, true, List, [], Some};
ghost use Rattle.gs1_ids.specs.Sscc.{under_some};
ghost use Rattle.gs1_ids.specs.Overlap.{PrefixFree};
ghost use Rattle.hub_founding.specs.Fits.{fits, founded_beside};
ghost use Rattle.hub_parties.specs.Rows.{RegisterRows, IsRegister, company_prefixes, supplier_row};
ghost use Rattle.hub_parties.specs.declared.row.SupplierRow.{SupplierRow};
ghost use Rattle.hub_tables.specs.Change.{apply_all};
ghost use Rattle.hub_tables.specs.Register.{register_of, founded};
ghost use Rattle.hub_tables.specs.Sets.{Fit};
ghost use Rattle.hub_tables.specs.Tables.{Tables, has_pallet, view, empty};
ghost use Rattle.hub_tables.specs.declared.change.Change.{Change};
ghost use Rattle.hub_rules.specs.JoinRules.{is_join, judge_join};
ghost use Rattle.hub_rules.specs.Laws.{KeptOwn, SoundHub, Registered, PartiesRise, KeepsApart, JoinedBy, Remembers};
ghost use Rattle.hub_rules.specs.Sound.{Rooted, Sound};
ghost use Rattle.hub_rules.specs.Submissions.{Submission, SubmitsLinesApart, IsAdmitted, judge, reference_of, content_of};
ghost use Rattle.hub_rules.specs.declared.verdict.Verdict.TheVariants.{Accept};

/// An SSCC under a supplier's prefixes belongs to some pallet exactly if it belongs to a pallet of this supplier.
pub fn pallet_is_its_prefixes_suppliers()
    ensures { (suppliers : List SupplierRow) (s : SupplierRow) (t : Tables) (sscc : List ℕ) →
        PrefixFree (company_prefixes suppliers) → supplier_row suppliers s.gln ≡ Some s → Rooted suppliers t →
        under_some sscc s.prefixes ≡ true → has_pallet t sscc ≡ has_pallet (view s.gln t) sscc }
{}

/// Empty tables are rooted, because they have no pallets, contents or receipts.
pub fn empty_tables_are_rooted()
    ensures { (suppliers : List SupplierRow) → Rooted suppliers empty }
{}

/// After what the rules accept, the supplier's rows are still its own and sound: each key occurs once; the order of
/// each line, the line of each content and the pallet of each receipt exist; mailbox entries are numbered without gaps;
/// and the ordered quantity of each line is what is open, refused, cancelled and despatched together.
pub fn rules_keep_rows()
    ensures { (s : SupplierRow) (state : Tables) (submission : Submission) (changes : List Change) →
        KeptOwn s state → SubmitsLinesApart submission → judge (Some s) submission state ≡ Accept changes →
        KeptOwn s (apply_all changes state) }
{}

/// If the rules accept a submission for a supplier's view of sound tables, the changes concern only this supplier's
/// rows: the supplier sees them applied to what it saw, the others see no change, and the tables are still sound.
pub fn rules_keep_suppliers_apart()
    ensures { (suppliers : List SupplierRow) (s : SupplierRow) (t : Tables) (submission : Submission)
        (changes : List Change) →
        Registered suppliers s t → SubmitsLinesApart submission →
        judge (Some s) submission (view s.gln t) ≡ Accept changes →
        KeepsApart suppliers s t changes }
{}

/// If the rules accept a submission for a supplier's view of sound tables whose register rows rise, the changes fit the
/// tables: keys rise strictly after the changes, and before each change that deletes rows.
pub fn accepted_changes_fit()
    ensures { (suppliers : List SupplierRow) (s : SupplierRow) (t : Tables) (submission : Submission)
        (changes : List Change) →
        Registered suppliers s t → PartiesRise t → SubmitsLinesApart submission →
        judge (Some s) submission (view s.gln t) ≡ Accept changes → Fit changes t }
{}

/// If the register of sound tables accepts a supplier (B18, B19, B20), it becomes one more of their suppliers: it sees
/// what the tables had for it already, with its key and its prefixes; no one else sees any change; each supplier that
/// was found by its GLN still is; and the tables hold a register and are sound.
pub fn joins_keep_suppliers_apart()
    ensures { (row : SupplierRow) (t : Tables) (changes : List Change) →
        SoundHub t → is_join row ≡ true → judge_join (register_of t) row ≡ Accept changes →
        JoinedBy row t (apply_all changes t) }
{}

/// Tables that have only the rows of a register are sound.
pub fn founded_tables_are_sound()
    ensures { (register : RegisterRows) → IsRegister register → SoundHub (founded register) }
{}

/// If the rows of schema 1 are sound for some suppliers, and a register that fits them is founded beside them, the
/// tables are sound. So what the hub assumes of its tables holds after a migration.
pub fn migrated_tables_are_sound()
    ensures { (register : RegisterRows) (suppliers : List SupplierRow) (t : Tables) → IsRegister register →
        t.hubs ≡ [] → t.keys ≡ [] → t.prefixes ≡ [] → Sound suppliers t → fits register t ≡ true →
        SoundHub (founded_beside t register) }
{}

/// If the rules accept a submission with changes, the first of these remembers it. They accept without changes exactly
/// if the same content is already remembered, and the message names no other buyer (B01) and names the supplier itself
/// (B02).
pub fn accepted_is_remembered()
    ensures { (s : SupplierRow) (state : Tables) (submission : Submission) →
        Remembers (reference_of s submission) (content_of submission) (IsAdmitted s submission) state
        (judge (Some s) submission state) }
{}
