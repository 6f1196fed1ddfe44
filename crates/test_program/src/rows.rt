//! Tables of worked examples.

use std::alloc::Global;
use std::test::Fail;

/// A row of a table.
pub trait ProgramCase {
    /// Whether what it says is so.
    fn holds(&self, alloc: Global) -> Result<bool, Fail>;
}

/// Tells which row of a table is the first that isn't so.
pub fn all_hold<R: ProgramCase>(alloc: Global, table: &str, rows: &[R]) -> Result<(), Fail> {
    for (index, row) in rows.iter().enumerate() {
        if !row.holds(alloc)? {
            return Err(Fail::new(format_args!("row {index} of {table}, counted from 0, is wrong")));
        }
    }
    Ok(())
}
