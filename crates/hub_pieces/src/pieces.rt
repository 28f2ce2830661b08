//! Reads rows in pieces.
ghost use Rattle.std.specs.Prelude.{◌≡◌, Bool, ℕ, List, IfOk, IfErr, map, true, refl};
ghost use Rattle.std.specs.List.{list_all};
ghost use Rattle.hub_sound.specs.Finding as keys;
ghost use Rattle.hub_sound.specs.Showing.{FailsTest, ShowsUnclean};
ghost use Rattle.hub_sound.specs.declared.finding.RowKind.{RowKind};
ghost use Rattle.hub_sound.specs.declared.finding.RowKind.TheVariants as kinds;
ghost use Rattle.hub_store.specs.Clean as forms;
ghost use Rattle.hub_tables.specs.Tables.{Tables};
ghost use Rattle.hub_pieces.specs.AllRows.{Tells, IsRead};
ghost use Rattle.hub_pieces.specs.Pieces.{piece, values_in};
ghost use Rattle.hub_pieces.specs.declared.piece_kind.PieceKind.{PieceKind};
ghost use Rattle.hub_pieces.specs.declared.piece_kind.PieceKind.TheVariants as pieces;

use crate::all_rows::{AllRows, Read};
use crate::piece_kind::PieceKind;
use edi_base::Items;
use hub_sound::RowKind;
use hub_store::StoreFault;
use hub_tables::{
    AdviceRow, ContentRow, LineRow, MailRow, OrderRow, PalletRow, ReceiptRow, RememberedRow,
};

/// A row of a kind that is read in pieces.
pub trait PieceRow: Sized + Drop {
    /// The rows of the kind.
    ghost rows: { Tables → List Self };

    /// The value by which a row belongs to a piece.
    ghost column: { Self → List ℕ };

    /// The key of a row.
    ghost key_of: { Self → keys.RowKey };

    /// Whether a row has the form of its kind.
    ghost clean: { Self → Bool };

    /// The kind, as it is read.
    ghost divided: { PieceKind };

    /// The kind, as a finding names it.
    ghost named: { RowKind };

    /// Returns the kind, as it is read.
    fn piece_kind() -> PieceKind
        ensures { result ≡ divided };

    /// Returns the kind, as a finding names it.
    fn row_kind() -> RowKind
        ensures { result ≡ named };

    /// Reads the rows with this value.
    fn read<S: AllRows>(store: &mut S, value: &[u8]) -> Result<Read<Self>, StoreFault>
        ensures { Tells S.content S.honest (λ t. IsRead key_of clean (piece column value.now (rows t)))
            store.old store.new result };

    /// The values are those of the rows.
    ghost valued: { (t : Tables) → values_in divided t ≡ map column (rows t) };

    /// One that is not clean shows it.
    ghost shows_unclean: { (t : Tables) (key : keys.RowKey) →
        FailsTest key_of clean (rows t) key → ShowsUnclean t named key };
}

impl PieceRow for OrderRow {
    ghost rows = { λ t. t.orders };

    ghost column = { λ row. row.supplier };

    ghost key_of = { keys.order_key };

    ghost clean = { forms.clean_order };

    ghost divided = { pieces.Order };

    ghost named = { kinds.Order };

    ghost valued = { λ t. refl };

    ghost shows_unclean = { λ t key it. it };

    fn piece_kind() -> PieceKind {
        PieceKind::Order
    }

    fn row_kind() -> RowKind {
        RowKind::Order
    }

    fn read<S: AllRows>(store: &mut S, value: &[u8]) -> Result<Read<OrderRow>, StoreFault> {
        store.orders_of(value)
    }
}

impl PieceRow for LineRow {
    ghost rows = { λ t. t.lines };

    ghost column = { λ row. row.supplier };

    ghost key_of = { keys.line_key };

    ghost clean = { forms.clean_line };

    ghost divided = { pieces.Line };

    ghost named = { kinds.Line };

    ghost valued = { λ t. refl };

    ghost shows_unclean = { λ t key it. it };

    fn piece_kind() -> PieceKind {
        PieceKind::Line
    }

    fn row_kind() -> RowKind {
        RowKind::Line
    }

    fn read<S: AllRows>(store: &mut S, value: &[u8]) -> Result<Read<LineRow>, StoreFault> {
        store.lines_of(value)
    }
}

impl PieceRow for AdviceRow {
    ghost rows = { λ t. t.advices };

    ghost column = { λ row. row.supplier };

    ghost key_of = { keys.advice_key };

    ghost clean = { forms.clean_advice };

    ghost divided = { pieces.Advice };

    ghost named = { kinds.Advice };

    ghost valued = { λ t. refl };

    ghost shows_unclean = { λ t key it. it };

    fn piece_kind() -> PieceKind {
        PieceKind::Advice
    }

    fn row_kind() -> RowKind {
        RowKind::Advice
    }

    fn read<S: AllRows>(store: &mut S, value: &[u8]) -> Result<Read<AdviceRow>, StoreFault> {
        store.advices_of(value)
    }
}

impl PieceRow for PalletRow {
    ghost rows = { λ t. t.pallets };

    ghost column = { λ row. row.supplier };

    ghost key_of = { keys.pallet_key };

    ghost clean = { forms.clean_pallet };

    ghost divided = { pieces.Pallet };

    ghost named = { kinds.Pallet };

    ghost valued = { λ t. refl };

    ghost shows_unclean = { λ t key it. it };

    fn piece_kind() -> PieceKind {
        PieceKind::Pallet
    }

    fn row_kind() -> RowKind {
        RowKind::Pallet
    }

    fn read<S: AllRows>(store: &mut S, value: &[u8]) -> Result<Read<PalletRow>, StoreFault> {
        store.pallets_of(value)
    }
}

impl PieceRow for ContentRow {
    ghost rows = { λ t. t.contents };

    ghost column = { λ row. row.sscc };

    ghost key_of = { keys.content_key };

    ghost clean = { forms.clean_content };

    ghost divided = { pieces.Content };

    ghost named = { kinds.Content };

    ghost valued = { λ t. refl };

    ghost shows_unclean = { λ t key it. it };

    fn piece_kind() -> PieceKind {
        PieceKind::Content
    }

    fn row_kind() -> RowKind {
        RowKind::Content
    }

    fn read<S: AllRows>(store: &mut S, value: &[u8]) -> Result<Read<ContentRow>, StoreFault> {
        store.contents_on(value)
    }
}

impl PieceRow for ReceiptRow {
    ghost rows = { λ t. t.receipts };

    ghost column = { λ row. row.sscc };

    ghost key_of = { keys.receipt_key };

    ghost clean = { forms.clean_receipt };

    ghost divided = { pieces.Receipt };

    ghost named = { kinds.Receipt };

    ghost valued = { λ t. refl };

    ghost shows_unclean = { λ t key it. it };

    fn piece_kind() -> PieceKind {
        PieceKind::Receipt
    }

    fn row_kind() -> RowKind {
        RowKind::Receipt
    }

    fn read<S: AllRows>(store: &mut S, value: &[u8]) -> Result<Read<ReceiptRow>, StoreFault> {
        store.receipts_on(value)
    }
}

impl PieceRow for RememberedRow {
    ghost rows = { λ t. t.remembered };

    ghost column = { λ row. row.supplier };

    ghost key_of = { keys.remembered_key };

    ghost clean = { forms.clean_remembered };

    ghost divided = { pieces.Remembered };

    ghost named = { kinds.Remembered };

    ghost valued = { λ t. refl };

    ghost shows_unclean = { λ t key it. it };

    fn piece_kind() -> PieceKind {
        PieceKind::Remembered
    }

    fn row_kind() -> RowKind {
        RowKind::Remembered
    }

    fn read<S: AllRows>(store: &mut S, value: &[u8]) -> Result<Read<RememberedRow>, StoreFault> {
        store.remembered_of(value)
    }
}

impl PieceRow for MailRow {
    ghost rows = { λ t. t.mail };

    ghost column = { λ row. row.supplier };

    ghost key_of = { keys.mail_key };

    ghost clean = { forms.clean_mail };

    ghost divided = { pieces.Mail };

    ghost named = { kinds.Mail };

    ghost valued = { λ t. refl };

    ghost shows_unclean = { λ t key it. it };

    fn piece_kind() -> PieceKind {
        PieceKind::Mail
    }

    fn row_kind() -> RowKind {
        RowKind::Mail
    }

    fn read<S: AllRows>(store: &mut S, value: &[u8]) -> Result<Read<MailRow>, StoreFault> {
        store.mail_of(value)
    }
}

/// Takes the rows; `Disk` if one does not have the form of its kind, since it had when all rows were checked.
pub fn rows_of<T: Drop>(read: Read<T>) -> Result<Items<T>, StoreFault>
    ensures ok { IfOk result (λ rows. read ≡ Read.Rows rows) }
    ensures fails { IfErr result (λ fault. fault ≡ StoreFault.Disk) }
{
    match read {
        Read::Rows(rows) => Ok(rows),
        Read::Unclean(_key) => Err(StoreFault::Disk),
    }
}

/// Returns the rows with this value.
///
/// # Errors
///
/// Those of the rows, and `Disk` if one does not have the form of its kind.
pub fn rows_with<S: AllRows, T: PieceRow>(
    store: &mut S,
    value: &[u8],
) -> Result<Items<T>, StoreFault>
    ensures { Tells S.content S.honest
        (λ t rows. (rows ≡ piece T.column value.now (T.rows t)) × (list_all T.clean rows ≡ true))
        store.old store.new result }
{
    let read = T::read(store, value)?;
    let rows = rows_of(read)?;
    Ok(rows)
}
