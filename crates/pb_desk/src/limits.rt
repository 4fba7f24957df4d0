// What a line may have.
ghost use Rattle.std.specs.Prelude.{◌≡◌};
ghost use Rattle.pb_desk.specs.Limits.{limit_of_piece};

use pb_base::LimitKind;

/// How much a text may have at most.
#[derive(Clone, Copy)]
pub struct LineLimits {
    /// Bytes of the text, with its line ends.
    pub text: u64,
    /// Bytes of one line, without its end.
    pub line: u64,
    /// Lines.
    pub lines: u64,
}

/// What is left: bytes of the text, bytes of the line, and whether a line is.
#[derive(Clone, Copy)]
pub struct Remaining {
    pub text: u64,
    pub line: u64,
    pub is_last: bool,
}

/// The first limit that a piece passes, which may be followed by a line end.
pub fn limit_of_piece(left: &Remaining, count: u64, is_ended: bool) -> Option<LimitKind>
    ensures { result ≡ limit_of_piece left.now.text left.now.is_last left.now.line count is_ended }
{
    if count > 0 || is_ended {
        if left.text == 0 {
            return Some(LimitKind::Text);
        }
        if left.is_last {
            return Some(LimitKind::Lines);
        }
    }
    if left.line < count && left.line < left.text {
        return Some(LimitKind::Line);
    }
    if left.text < count || (is_ended && left.text == count) {
        return Some(LimitKind::Text);
    }
    None
}
