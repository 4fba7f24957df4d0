//! The stages of reading a text, and the stage after each token.
ghost use Rattle.std.specs.Prelude.{◌≡◌};

use pb_base::{Expected, LimitKind, MAX_STATEMENTS, MAX_TERMS, Relation, WEIGHT_BITS};

/// The owner of the open sum: the objective or a statement.
#[derive(Clone, Copy)]
pub enum Part {
    Objective,
    Statement,
}

/// The state of reading a text, with what is known of the token before.
#[derive(Clone, Copy)]
pub enum Stage {
    Start,
    Next,
    /// Behind the word that begins an objective.
    Minimised,
    Coefficient(Part, i128),
    /// After a literal, where a further one of the same term may come.
    Literals(Part),
    Related(Relation),
    Right(Relation, i128),
}

/// The position of a literal in the open sum.
#[derive(Clone, Copy)]
pub enum Spot {
    /// A term begins with the literal.
    First(Part, i128),
    /// The last term has one literal more.
    Further(Part),
    /// No literal may come there.
    Elsewhere,
}

/// The part of a text that a `;` ends.
#[derive(Clone, Copy)]
pub enum Ending {
    Objective,
    Statement(Relation, i128),
    Nothing,
}

/// The weight of a statement or objective is below this.
pub const WEIGHT: u128 = 1 << WEIGHT_BITS;

impl Stage {
    ghost use Rattle.std.specs.Prelude.{ℤ, ◌+◌, ◌≤◌, ◌^◌, unsigned_abs};
    ghost use Rattle.pb_opb.specs.Grammar.Kind.{minimise, integer, relation};
    ghost use Rattle.pb_opb.specs.reader.Automaton.{expected};
    ghost use Rattle.pb_opb.specs.reader.Front.{state_of, begun_statements, begun_literals};
    ghost use Rattle.pb_opb.specs.reader.Steps.{MayLead, MayLeadAs, IsSpot, IsEnding, stage_weight};
    ghost use Rattle.pb_opb.specs.reader.Takes.{Passes};

    /// Returns the token that a fault at this stage says is expected.
    pub fn expected(self) -> Expected
        ensures { result ≡ expected (state_of self) }
    {
        match self {
            Stage::Start => Expected::Start,
            Stage::Next => Expected::Next,
            Stage::Minimised => Expected::TermOrSemicolon,
            Stage::Coefficient(_, _) => Expected::Literal,
            Stage::Literals(Part::Objective) => Expected::TermOrSemicolon,
            Stage::Literals(Part::Statement) => Expected::TermOrRelation,
            Stage::Related(_) => Expected::Integer,
            Stage::Right(_, _) => Expected::Semicolon,
        }
    }

    /// Returns the weight that the stage adds to its sum: the absolute value of the number just read, else 0.
    pub fn stage_weight(self) -> u128
        ensures value { result ≡ stage_weight self }
        ensures bound { result ≤ 2 ^ 127 }
    {
        match self {
            Stage::Coefficient(_, n) => n.unsigned_abs(),
            Stage::Right(_, n) => n.unsigned_abs(),
            _ => 0,
        }
    }

    /// Returns 1 if the stage is within a statement, and else 0.
    pub fn begun_statements(self) -> usize
        ensures value { result ≡ begun_statements self }
        ensures bound { result ≤ 1 }
    {
        match self {
            Stage::Start | Stage::Next | Stage::Minimised => 0,
            Stage::Coefficient(Part::Objective, _) => 0,
            Stage::Literals(Part::Objective) => 0,
            Stage::Coefficient(Part::Statement, _) => 1,
            Stage::Literals(Part::Statement) => 1,
            Stage::Related(_) => 1,
            Stage::Right(_, _) => 1,
        }
    }

    /// Returns 1 if the stage is after a coefficient, whose literal is still to come, and else 0.
    pub fn begun_literals(self) -> usize
        ensures value { result ≡ begun_literals self }
        ensures bound { result ≤ 1 }
    {
        match self {
            Stage::Coefficient(_, _) => 1,
            _ => 0,
        }
    }

    /// Returns the first limit that is passed at the stage, given the statements and literals before it and the weight so far.
    pub fn passed_limit(self, statements: usize, literals: usize, weight: u128) -> Option<LimitKind>
        requires statements { statements ≤ 2 ^ 24 }
        requires literals { literals ≤ 2 ^ 20 }
        ensures { Passes result (statements + begun_statements self) (literals + begun_literals self) weight }
    {
        if statements + self.begun_statements() > MAX_STATEMENTS {
            Some(LimitKind::Statements)
        } else if literals + self.begun_literals() > MAX_TERMS {
            Some(LimitKind::Terms)
        } else if weight >= WEIGHT {
            Some(LimitKind::Weight)
        } else {
            None
        }
    }

    /// Returns the stage after `min:`, if it may come here.
    pub fn minimise(self) -> Option<Stage>
        ensures { MayLead self minimise result }
    {
        match self {
            Stage::Start => Some(Stage::Minimised),
            _ => None,
        }
    }

    /// Returns the stage after an integer, if one may come here.
    pub fn integer(self, n: i128) -> Option<Stage>
        ensures { MayLead self (integer n) result }
    {
        match self {
            Stage::Start | Stage::Next => Some(Stage::Coefficient(Part::Statement, n)),
            Stage::Minimised => Some(Stage::Coefficient(Part::Objective, n)),
            Stage::Literals(part) => Some(Stage::Coefficient(part, n)),
            Stage::Related(relation) => Some(Stage::Right(relation, n)),
            Stage::Coefficient(_, _) | Stage::Right(_, _) => None,
        }
    }

    /// Returns the stage after an integer of absolute value 2^126 or more, with 0 in its place, if an integer may come here.
    pub fn wide(self) -> Option<Stage>
        ensures { (n : ℤ) → 2 ^ 126 ≤ unsigned_abs n → MayLeadAs self (integer n) result }
    {
        match self {
            Stage::Coefficient(_, _) | Stage::Right(_, _) => None,
            Stage::Start => Some(Stage::Coefficient(Part::Statement, 0)),
            Stage::Next => Some(Stage::Coefficient(Part::Statement, 0)),
            Stage::Minimised => Some(Stage::Coefficient(Part::Objective, 0)),
            Stage::Literals(part) => Some(Stage::Coefficient(part, 0)),
            Stage::Related(relation) => Some(Stage::Right(relation, 0)),
        }
    }

    /// Returns the stage after a relation, if one may come here.
    pub fn relation(self, sign: Relation) -> Option<Stage>
        ensures { MayLead self (relation sign) result }
    {
        match self {
            Stage::Start | Stage::Next | Stage::Literals(Part::Statement) => {
                Some(Stage::Related(sign))
            }
            _ => None,
        }
    }

    /// Returns the position that a literal would have here.
    pub fn spot(self) -> Spot
        ensures { IsSpot self result }
    {
        match self {
            Stage::Coefficient(part, coef) => Spot::First(part, coef),
            Stage::Literals(part) => Spot::Further(part),
            _ => Spot::Elsewhere,
        }
    }

    /// Returns the part of the text that a `;` would end here.
    pub fn ending(self) -> Ending
        ensures { IsEnding self result }
    {
        match self {
            Stage::Minimised | Stage::Literals(Part::Objective) => Ending::Objective,
            Stage::Right(relation, right) => Ending::Statement(relation, right),
            _ => Ending::Nothing,
        }
    }
}
