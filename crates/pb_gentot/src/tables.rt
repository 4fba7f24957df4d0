//! How large the tables over a node's numbers are.
ghost use Rattle.std.specs.Prelude.{◌≡◌, ◌≤◌, ◌+◌, ◌^◌, ◌⊎◌};

/// No table has more entries.
const MOST_ENTRIES: u128 = 1 << 22;

/// A table has about so many entries at most for each pair of values.
const ENTRIES_PER_PAIR: usize = 16;

/// How many entries a node's table of the numbers up to a cap has: one for each number, or none where they are too many at
/// all, or beside the pairs of its parts' values. So making a table takes no longer than going over the pairs.
pub fn table_size(cap: u128, lefts: usize, rights: usize) -> usize
    ensures whole { (result ≡ 0) ⊎ (result ≡ cap + 1) }
    ensures small { result ≤ 2 ^ 22 }
{
    if cap >= MOST_ENTRIES {
        return 0;
    }
    let entries = cap as usize + 1;
    if entries / ENTRIES_PER_PAIR / lefts.max(1) > rights {
        return 0;
    }
    entries
}
