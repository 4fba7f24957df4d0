//! Why columns give no statements.

use pb_base::LimitKind;

/// The reason why columns give no statements.
#[derive(Clone, Copy)]
pub enum ColumnFault {
    NoMemory,
    /// A number is out of its range: one of the sum at this place, from 1, or at 0 one that is no single sum's.
    Unfit { at: u64 },
    /// A limit is passed, by the sum at this place, or at 0 by all.
    Limit { which: LimitKind, at: u64 },
}
