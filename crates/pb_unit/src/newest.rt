//! The newest items of a list.
ghost use Rattle.std.specs.Prelude.{◌<◌, true, length, slice_index_or, IfSome};
ghost use Rattle.std.specs.Fn.{FnReturnsAt};

// So many of the newest are looked at where a constraint goes: one that came late is found, and none costs more.
const NEWEST: usize = 8;

/// Where one of the newest items that pass a test is, if one does. No more than eight are looked at.
pub fn newest_that<T, F: Fn(&T) -> bool>(items: &[T], passes: F) -> Option<usize>
    requires { F.IsAlwaysCallable passes }
    // The index is one of the list's.
    ensures below { IfSome result (λ i. i < length items.now) }
    // The item there passes the test.
    ensures at { IfSome result (λ i. (d : T) → FnReturnsAt F.Fn passes (slice_index_or items.now i d) true) }
{
    for back in 0..items.len().min(NEWEST) {
        let index = items.len() - 1 - back;
        if passes(&items[index]) {
            return Some(index);
        }
    }
    None
}
