//! Reads the rows of a hub in pieces, those of one supplier or pallet at a time, and checks each piece.
#![tactic(auto)]

mod all_rows;
mod piece_kind;
mod pieces;
mod walk;

pub use all_rows::{AllRows, Read};
pub use piece_kind::PieceKind;
pub use pieces::{PieceRow, rows_of, rows_with};
pub use walk::{PieceCheck, walk_pieces};
