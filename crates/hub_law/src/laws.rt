//! States laws of the hub, each as the contract of a function without a body.
//!
//! The items of a GLN are the parts of the inputs that concern it: its own inputs, the retailer's messages that name
//! it, the retailer's cancellations for it, and the join by which the register accepted it. What the GLN would see
//! alone is what its items leave in its own rows, if the tables had nothing else.
//!
//! Tables are a sound start if they hold a register in which no prefix of one supplier begins a prefix of another, and
//! are sound with its suppliers. Tables that have only the rows of a register are one, and each step keeps this. The
//! laws hold for every GLN but the retailer's, whether it is registered or not.
ghost use Rattle.std.specs.Prelude.{◌≡◌, ◌≢◌, ℕ, true, false, List, [], ◌∷◌, ◌++◌, codes, Some};
ghost use Rattle.std.specs.List.{AllByRecursion};
ghost use Rattle.gs1_ids.specs.Overlap.{PrefixFree};
ghost use Rattle.hub_parties.specs.Rows.{RegisterRows, IsRegister, company_prefixes, role_of};
ghost use Rattle.hub_parties.specs.declared.role.Role.TheVariants.{Retailer};
ghost use Rattle.hub_parties.specs.declared.row.SupplierRow.{SupplierRow};
ghost use Rattle.hub_tables.specs.Register.{register_of, parties_in, suppliers_of, row_at, founded};
ghost use Rattle.hub_tables.specs.Tables.{Tables, view};
ghost use Rattle.hub_rules.specs.Sound.{Balanced, Sound};
ghost use Rattle.hub_rules.specs.JoinRules.{joins};
ghost use Rattle.hub_rules.specs.Laws.{SoundHub};
ghost use Rattle.hub_law.specs.Alone.{items, items_of_input};
ghost use Rattle.hub_law.specs.Laws.{StepIsOwn, RunIsOwn, IsOther, AsksStatus, Agree, AgreeBefore, StandsApart};
ghost use Rattle.hub_law.specs.Laws.{alone, own_report, reply_between};
ghost use Rattle.hub_law.specs.Machine.{Inputs, shared_step, shared_run, replies_to};
ghost use Rattle.hub_law.specs.Mark.{Mark, Whole};
ghost use Rattle.hub_law.specs.Overlap.{long_supplier, overlapping, both_announce, one_announces, advice_reply};
ghost use Rattle.hub_requests.specs.declared.request.Input.{Input};
ghost use Rattle.hub_requests.specs.declared.request.Request.TheVariants.{Join};

/// After any request, whoever makes it, each GLN but the retailer's sees what it would see alone; and if it is the
/// caller, it gets the reply that it would get alone. This also holds for a request that was stopped. Before the GLN
/// has its register row, it is denied and sees only what the tables had for it from the start.
pub fn step_is_own()
    ensures { (gln : List ℕ) (t : Tables) (input : Input) (mark : Mark) →
        SoundHub t → IsOther gln t → StepIsOwn gln t input mark }
{}

/// Like `step_is_own`, for all inputs of a run: what the GLN sees in the end, and all its replies in their order. If
/// the retailer asks for the GLN's status during the run, the reply is the text of what the GLN would see alone at that
/// point, or unknown before it has a register row.
pub fn run_is_own()
    ensures run { (gln : List ℕ) (t : Tables) (inputs : Inputs) → SoundHub t → IsOther gln t →
        RunIsOwn gln t inputs }
    ensures status { (gln : List ℕ) (t : Tables) (before later : Inputs) (input : Input) →
        SoundHub t → IsOther gln t → AsksStatus gln t input →
        reply_between t before input later ≡ Some (own_report gln (alone gln (items gln t before) t).1) }
{}

/// Two runs that agree on a GLN are the same for it: it sees the same in the end and gets the same replies, and the
/// retailer gets the same status of it after equally many of its items. The runs agree if they have the same GLNs of
/// hub and retailer, the same rows of the GLN at the start (including its prefixes and its key, or that it has none),
/// and the same items of the GLN. The other suppliers, the retailer's key, all other rows and all other inputs may
/// differ.
pub fn runs_alike()
    ensures seen { (gln : List ℕ) (t u : Tables) (xs ys : Inputs) →
        Agree gln t u xs ys → view gln (shared_run t xs).1 ≡ view gln (shared_run u ys).1 }
    ensures told { (gln : List ℕ) (t u : Tables) (xs ys : Inputs) →
        Agree gln t u xs ys → replies_to gln xs (shared_run t xs).0 ≡ replies_to gln ys (shared_run u ys).0 }
    ensures status { (gln : List ℕ) (t u : Tables) (xs xs_later ys ys_later : Inputs) (x y : Input) →
        AgreeBefore gln t u xs xs_later ys ys_later x y →
        reply_between t xs x xs_later ≡ reply_between u ys y ys_later }
{}

/// After any requests, by anyone, a sound start is still sound, with the same hub and retailer, and each supplier that
/// had a row still has it. Tables that have only the rows of a register are a sound start. Sound means: the tables hold
/// a register; rows are in the order of their keys, and no key occurs twice among a supplier's rows; each line has its
/// order, each content its line and its pallet, and each receipt a pallet that was received; each pallet belongs to a
/// supplier and is under one of its prefixes; mailbox entries are numbered from 1; and every line balances.
pub fn hub_stays_sound()
    ensures step { (t : Tables) (input : Input) (mark : Mark) → SoundHub t →
        SoundHub (shared_step t input mark).1 }
    ensures run { (t : Tables) (inputs : Inputs) → SoundHub t → SoundHub (shared_run t inputs).1 }
    ensures parties { (t : Tables) (inputs : Inputs) → SoundHub t →
        parties_in (shared_run t inputs).1 ≡ parties_in t }
    ensures rows { (t : Tables) (inputs : Inputs) (gln : List ℕ) (s : SupplierRow) →
        SoundHub t → row_at gln t ≡ Some s → row_at gln (shared_run t inputs).1 ≡ Some s }
    ensures retailer { (t : Tables) (inputs : Inputs) (caller key : List ℕ) → SoundHub t →
        role_of (register_of t) caller key ≡ Some Retailer →
        role_of (register_of (shared_run t inputs).1) caller key ≡ Some Retailer }
    ensures founded { (register : RegisterRows) → IsRegister register → SoundHub (founded register) }
    ensures register { (register : RegisterRows) → IsRegister register →
        register_of (founded register) ≡ register }
{}

/// In sound tables, the ordered quantity of every order line is what is open, refused, cancelled and despatched
/// together. The despatched quantity is the sum of the contents on the supplier's pallets that name the line.
pub fn each_line_balances()
    ensures { (suppliers : List SupplierRow) (t : Tables) →
        Sound suppliers t → AllByRecursion (λ line. Balanced (view line.supplier t) line) t.lines }
{}

/// What a GLN sees, and the replies that it gets, do not depend on whether another supplier joins. A join is an item
/// only of its caller and of the supplier that joins, and of that supplier only if it is neither refused nor stopped.
/// So a join that another caller asks for can be left out of a run: a GLN that has its row by then, or that no one
/// registers later, sees the same in the end and gets the same replies.
pub fn joins_are_apart()
    ensures others { (gln : List ℕ) (t : Tables) (input : Input) (mark : Mark) (row : SupplierRow) →
        input.request ≡ Join row → input.caller ≢ gln → row.gln ≢ gln → items_of_input gln t input mark ≡ [] }
    ensures refused { (gln : List ℕ) (t : Tables) (input : Input) (mark : Mark) (row : SupplierRow) →
        input.request ≡ Join row → input.caller ≢ gln → joins (register_of t) row ≡ false →
        items_of_input gln t input mark ≡ [] }
    ensures stopped { (gln : List ℕ) (t : Tables) (input : Input) (mark : Mark) (row : SupplierRow) →
        input.request ≡ Join row → input.caller ≢ gln → mark ≢ Whole → items_of_input gln t input mark ≡ [] }
    ensures seen { (gln : List ℕ) (t : Tables) (before later : Inputs) (input : Input) (mark : Mark)
        (row : SupplierRow) →
        SoundHub t → IsOther gln t → StandsApart gln (shared_run t before).1 input row later →
        view gln (shared_run t (before ++ (input, mark) ∷ later)).1
        ≡ view gln (shared_run t (before ++ later)).1 }
    ensures told { (gln : List ℕ) (t : Tables) (before later : Inputs) (input : Input) (mark : Mark)
        (row : SupplierRow) →
        SoundHub t → IsOther gln t → StandsApart gln (shared_run t before).1 input row later →
        replies_to gln (before ++ (input, mark) ∷ later) (shared_run t (before ++ (input, mark) ∷ later)).0
        ≡ replies_to gln (before ++ later) (shared_run t (before ++ later)).0 }
{}

/// An example shows that the laws can fail if a prefix of one supplier begins a prefix of another. Each of two such
/// suppliers has an order, and both announce pallets with the same SSCC: the second is refused with B12. If the first
/// announces nothing, or if the second were alone, it would be accepted, with the same items.
pub fn prefixes_matter()
    ensures overlap { PrefixFree (company_prefixes (suppliers_of overlapping)) → ⊥ }
    ensures items { items long_supplier.gln overlapping both_announce ≡
        items long_supplier.gln overlapping one_announces }
    ensures both { replies_to long_supplier.gln both_announce (shared_run overlapping both_announce).0 ≡
        advice_reply true (codes "refused" ∷ codes "B12" ∷ []) ∷ [] }
    ensures one { replies_to long_supplier.gln one_announces (shared_run overlapping one_announces).0 ≡
        advice_reply false (codes "accepted" ∷ []) ∷ [] }
    ensures alone { (alone long_supplier.gln (items long_supplier.gln overlapping both_announce) overlapping).0 ≡
        advice_reply false (codes "accepted" ∷ []) ∷ [] }
{}
