//! Where the clauses of a counter stand.
ghost use Rattle.std.specs.Prelude.{◌≡◌, ◌≤◌, ◌<◌, ◌+◌, ◌*◌, ◌^◌};
ghost use Rattle.pb_counter.specs.inner.Order.{place_at};

/// A clause of a counter: what it says, its row, and its place in the row.
#[derive(Clone, Copy)]
pub enum Place {
    /// One literal is true up to the first, where that is.
    Start,
    /// No more than so many are true up to the first literal.
    Below(usize),
    /// One is true up to the literal after a row, where that is.
    One(usize),
    /// What is counted at a place of a row is counted in the next row.
    Keep(usize, usize),
    /// One more than at a place of a row is counted in the next row, where the literal after the row is true.
    More(usize, usize),
    /// The literal after a row is false where the row counts the bound.
    Stop(usize),
}

/// The place with a number, of so many literals and a bound: the first row, and then one row after another.
pub fn place_at(count: usize, width: usize, number: usize) -> Place
    requires two { 2 ≤ count }
    requires some { 1 ≤ width }
    requires small { width < 2 ^ 31 }
    ensures { result ≡ place_at count width number }
{
    if number == 0 {
        return Place::Start;
    }
    if number < width {
        return Place::Below(number);
    }
    let row = (number - width) / (2 * width + 1);
    let turn = (number - width) % (2 * width + 1);
    if row == count - 2 || turn == 2 * width {
        return Place::Stop(row);
    }
    if turn == 0 {
        return Place::One(row);
    }
    if turn % 2 == 0 {
        return Place::More(row, turn / 2 - 1);
    }
    Place::Keep(row, turn / 2)
}
