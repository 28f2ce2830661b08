//! States laws of clean rows, each as the contract of a function without a body.
ghost use Rattle.std.specs.Prelude.{◌≡◌, ◌≤◌, true, ℕ, List, Some, Ok};
ghost use Rattle.std.specs.List.{AllByRecursion};
ghost use Rattle.edi_envelope.specs.declared.interchange.Interchange.{Interchange};
ghost use Rattle.edi_envelope.specs.declared.interchange.RawMessage.{RawMessage};
ghost use Rattle.edi_envelope.specs.Opened.{opened};
ghost use Rattle.edi_moment.specs.Moment.{last_moment};
ghost use Rattle.edi_documents.specs.Document.{document_as, document_of};
ghost use Rattle.edi_documents.specs.declared.document.Document.{Document};
ghost use Rattle.edi_documents.specs.declared.document.DocumentType.{DocumentType};
ghost use Rattle.edi_orders.specs.declared.order.Order.{Order};
ghost use Rattle.hub_parties.specs.Rows.{RegisterRows};
ghost use Rattle.hub_parties.specs.declared.row.SupplierRow.{SupplierRow};
ghost use Rattle.hub_tables.specs.Change.{apply_all};
ghost use Rattle.hub_tables.specs.Sets.{Has};
ghost use Rattle.hub_tables.specs.State.{entry_at};
ghost use Rattle.hub_tables.specs.Tables.{Tables, view};
ghost use Rattle.hub_tables.specs.declared.change.Change.{Change};
ghost use Rattle.hub_tables.specs.declared.rows.MailRow.{MailRow};
ghost use Rattle.hub_store.specs.Calls.{have_places};
ghost use Rattle.hub_store.specs.Clean.{are_clean};
ghost use Rattle.hub_rules.specs.Rules.{judge_order};
ghost use Rattle.hub_rules.specs.JoinRules.{is_join};
ghost use Rattle.hub_rules.specs.Laws.{Registered, SoundHub};
ghost use Rattle.hub_rules.specs.Submissions.{Submission, judge};
ghost use Rattle.hub_rules.specs.declared.incoming.IncomingMessage.{IncomingMessage};
ghost use Rattle.hub_rules.specs.declared.verdict.Verdict.TheVariants.{Accept};
ghost use Rattle.hub_law.specs.HubRequests.declared.request.Input.{Input};
ghost use Rattle.hub_law.specs.Machine.{Inputs, shared_step, shared_run};
ghost use Rattle.hub_law.specs.Mark.{Mark};
ghost use Rattle.hub_law.specs.Messages.{incoming};
ghost use Rattle.hub_law.specs.Requests.{join, taking};
ghost use Rattle.hub_clean.specs.Clean.{WithinMessage, WithinSubmission, WithinInput, IsWithin, Cleaned};

/// If all rows are clean and a message or a cancellation of a supplier is within its limits, the rows are still clean
/// after what the rules accept of it. They also are after a join and after a taken mark.
pub fn rules_keep_rows_clean()
    ensures submission { (s : SupplierRow) (t : Tables) (submission : Submission) →
        WithinSubmission submission → Cleaned s t (judge (Some s) submission) }
    ensures join { (register : RegisterRows) (row : SupplierRow) (t : Tables) →
        is_join row ≡ true → are_clean t ≡ true → are_clean (join register row t).1 ≡ true }
    ensures taken { (gln : List ℕ) (number : ℕ) (t : Tables) (entry : MailRow) →
        are_clean t ≡ true → entry_at (view gln t) number ≡ Some entry →
        are_clean (apply_all (taking entry) t) ≡ true }
{}

/// A document that was read from a message is within its limits.
pub fn messages_read_are_within_limits()
    ensures of_a_type { (type : DocumentType) (message : RawMessage) (document : Document) →
        document_as type message ≡ Ok document → IsWithin message document }
    ensures document { (message : RawMessage) (document : Document) →
        document_of message ≡ Ok document → IsWithin message document }
{}

/// What accompanies a message of an opened upload is within its limits: UNB, UNH and UNT have been checked, and what is
/// read from a text is bytes.
pub fn messages_opened_are_within_limits()
    ensures { (bytes : List ℕ) (interchange : Interchange) (message : RawMessage) (moment : ℕ) →
        opened bytes ≡ Ok interchange → Has interchange.messages message → moment ≤ last_moment →
        WithinMessage message (incoming moment interchange message) }
{}

/// If the rules accept a submission for a supplier's view of sound tables, each change sets only rows that exist at its
/// turn. For an order this holds in any tables.
pub fn accepted_changes_have_places()
    ensures order { (s : SupplierRow) (t : Tables) (retailer : List ℕ) (incoming : IncomingMessage) (body : List ℕ)
        (order : Order) (changes : List Change) →
        judge_order retailer (Some s) incoming body order (view s.gln t) ≡ Accept changes →
        have_places changes t ≡ true }
    ensures submission { (suppliers : List SupplierRow) (s : SupplierRow) (t : Tables) → Registered suppliers s t →
        (submission : Submission) (changes : List Change) →
        judge (Some s) submission (view s.gln t) ≡ Accept changes → have_places changes t ≡ true }
{}

/// If a sound start has clean rows, each step of the shared machine leaves clean rows, whether it is stopped or not,
/// and so does a run. The bytes of an upload may be any.
pub fn steps_keep_rows_clean()
    ensures step { (t : Tables) (input : Input) (mark : Mark) → SoundHub t → are_clean t ≡ true →
        WithinInput input → are_clean (shared_step t input mark).1 ≡ true }
    ensures run { (inputs : Inputs) (t : Tables) → SoundHub t → are_clean t ≡ true →
        AllByRecursion (λ marked. WithinInput marked.0) inputs → are_clean (shared_run t inputs).1 ≡ true }
{}
