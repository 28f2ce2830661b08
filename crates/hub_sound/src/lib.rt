//! Decides which row shows that the tables of a hub are not a sound start.
#![tactic(auto)]

mod finding;
mod goods;
mod laws;

pub use finding::{
    Finding, KeyCell, RowKind, bytes_cell, content_finding, line_finding, mail_finding,
    number_cell, pallet_finding, receipt_finding, with_cell,
};
pub use goods::first_misfit;
pub use laws::{
    checked_tables_are_sound, gathered_goods_are_the_suppliers, shown_tables_are_unsound,
    unclean_rows_show,
};
