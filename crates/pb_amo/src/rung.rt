//! Where the clauses of a ladder stand.
ghost use Rattle.std.specs.Prelude.{◌≡◌, ◌≤◌, ◌<◌, ◌-◌, ◌*◌, ◌^◌};
ghost use Rattle.pb_amo.specs.inner.LadderOrder.{IsPlace, place_at};

/// A clause of a ladder: what it says, and its place.
#[derive(Clone, Copy)]
pub enum Place {
    /// Where some literal after the next place is true, some after this one is.
    Link(usize),
    /// No literal is true after the one at a place, where that is.
    NoneAfter(usize),
    /// Some literal is true after a place, where the one behind it is.
    SomeAfter(usize),
}

/// The place with a number, of so many literals: first all links, and then what follows from each literal.
pub fn place_at(count: usize, number: usize) -> Place
    requires three { 3 ≤ count }
    requires small { count < 2 ^ 31 }
    requires within { number < 3 * count - 4 }
    ensures is { result ≡ place_at count number }
    ensures place { IsPlace count result }
{
    if number < count - 2 {
        return Place::Link(number);
    }
    if number < 2 * count - 3 {
        return Place::NoneAfter(number - (count - 2));
    }
    Place::SomeAfter(number - (2 * count - 3))
}
