//! Tables of cases, each case tried by itself. The loops and assertions are proved once here, since that takes much longer than a
//! call.
use std::alloc::{Alloc, Global};
use std::process::Abort;

/// That this text was found of another.
pub fn assert_found(rt: &impl Abort, found: Option<String>, expected: &str, of: &str) {
    assert_eq!(rt; found.as_deref(), Some(expected), "of {of}");
}

/// That of each text what is beside it is found.
pub fn assert_each<R: Abort + Alloc<A = Global>, F: Fn(Global, &str) -> Option<String>>(
    rt: &R,
    tell: F,
    cases: &[(&str, &str)],
)
    requires { F.IsAlwaysCallable tell }
{
    for &(text, expected) in cases {
        let found = tell(rt.alloc(), text);
        assert_found(rt, found, expected, text);
    }
}

/// That of each text of a page what comes after its ` => ` is found. Between two of them is `between`.
pub fn assert_page<R: Abort + Alloc<A = Global>, F: Fn(Global, &str) -> Option<String>>(
    rt: &R,
    tell: F,
    between: &str,
    page: &str,
)
    requires { F.IsAlwaysCallable tell }
{
    for case in page.split(between) {
        let (text, expected) = case
            .split_once(" => ")
            .unwrap_or((case, "a case without =>"));
        let found = tell(rt.alloc(), text);
        assert_found(rt, found, expected, text);
    }
}
