//! A sum of which at most one literal may be true.
ghost use Rattle.std.specs.Prelude.{◌≡◌, ◌<◌, ◌^◌, true, length};
ghost use Rattle.pb_norm.specs.BoundedSums.{IsOverDistinct};
ghost use Rattle.pb_norm.specs.Reduction.{all_weigh};

use pb_norm::AtMost;

/// A sum whose bound is 1, as each of its coefficients is.
#[derive(Clone, Copy)]
pub struct One<'a> {
    pub of: &'a AtMost,
    ghost at_most_one: { of.now.bound ≡ 1 },
    ghost units: { all_weigh 1 of.now.terms ≡ true },
    ghost few: { length of.now.terms < 2 ^ 31 },
    ghost distinct: { IsOverDistinct of.now.terms },
}

impl<'a> One<'a> {
    /// Such a sum, of which its type says that its variables are distinct and its terms few.
    pub fn over(of: &'a AtMost) -> Self
        requires at_most_one { of.now.bound ≡ 1 }
        requires units { all_weigh 1 of.now.terms ≡ true }
        ensures { result.of.now ≡ of.now }
    {
        let _ = of.bound();
        One { of }
    }
}
