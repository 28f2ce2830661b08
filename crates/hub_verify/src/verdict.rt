//! Says whether rows are a sound start.
use hub_sound::Finding;

/// Whether rows are clean and a sound start.
#[derive(Drop)]
pub enum RowsVerdict {
    /// The rows are clean and a sound start.
    Sound,
    /// This row does not have the form of its kind.
    Unclean(Finding),
    /// The rows are clean, but this one shows that they are not a sound start.
    Unsound(Finding),
}
