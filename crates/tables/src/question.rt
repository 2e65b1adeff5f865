// Questions: keep X, break Y, one of them perhaps absent.
use crate::table::Table;

// A question, as its normal table.
#[derive(Drop)]
pub struct Question {
    pub table: Table,
}
