//! A table and the lists that its calls fill.
use crate::Table;
use crate::lists::Lists;

/// A table, and the lists that a call fills.
#[derive(Drop)]
pub struct Parts {
    pub table: Table,
    pub lists: Lists,
}
