//! A model text, symbol by symbol.
ghost use Rattle.std.specs.Prelude.{◌≡◌, ◌<◌, ◌^◌, [], ◌∷◌, ℕ, List, false, IfOk};
ghost use Rattle.pb_base.specs.declared.limit.LimitKind.TheVariants.{Variables};
ghost use Rattle.pb_model.specs.declared.fault.ModelFault.TheVariants.{Token, Limit};
ghost use Rattle.pb_model.specs.ModelLines.{Symbol, meant, IsWithin};
ghost use Rattle.pb_model.specs.ModelLines.Symbol.{status, values, word};
ghost use Rattle.pb_model.specs.ModelReading.{is_said};
ghost use Rattle.pb_model.specs.inner.Reading.{Knows, Takes, ConcludesBy};

use crate::fault::ModelFault;
use crate::listing::Listing;
use crate::meaning::{Meaning, meant};
use crate::model::{Model, Says};
use pb_base::{Expected, LimitKind, NoMemory, Number, Place};
use std::alloc::Global;

// True if there was a status line.
fn is_said(says: Says) -> bool
    ensures { result ≡ is_said says }
{
    match says {
        Says::Missing => false,
        _ => true,
    }
}

// Returns the fault that another word was expected at a place.
fn refusal_at(place: Place, expected: Expected) -> ModelFault
    ensures { result ≡ Token place expected }
{
    ModelFault::Token { place, expected }
}

// Returns the fault that a variable past the limit is at a place.
fn too_great(place: Place) -> ModelFault
    ensures { result ≡ Limit (Some place) Variables }
{
    ModelFault::Limit {
        place: Some(place),
        which: LimitKind::Variables,
    }
}

/// The state of reading a model text: the literals, the status, and if the values began and ended.
#[derive(Drop)]
pub struct Reader {
    pub listing: Listing,
    pub says: Says,
    pub begun: bool,
    pub ended: bool,
}

impl Reader {
    /// Starts before the first line.
    pub fn new(alloc: Global, vars: u32) -> Result<Reader, NoMemory>
        requires { vars < 2 ^ 31 }
        ensures { IfOk result (Knows vars []) }
    {
        Ok(Reader {
            listing: Listing::new(alloc, vars)?,
            says: Says::Missing,
            begun: false,
            ended: false,
        })
    }

    /// Reads a status line; a second one is refused.
    pub fn take_status(&mut self, place: Place, says: Says) -> Result<(), ModelFault>
        ensures { Takes (λ _. status place says ∷ []) self.old self.new result }
    {
        if is_said(self.says) {
            return Err(refusal_at(place, Expected::ModelLine));
        }
        self.says = says;
        Ok(())
    }

    /// Reads the first word of a line of values, which is refused after their end.
    pub fn open_values(&mut self, place: Place) -> Result<(), ModelFault>
        ensures { Takes (λ _. values place ∷ []) self.old self.new result }
    {
        if self.ended {
            return Err(refusal_at(place, Expected::ModelLine));
        }
        self.begun = true;
        Ok(())
    }

    // Adds the meaning of a word, before the end of the values.
    fn note_meaning(&mut self, place: Place, meaning: Meaning) -> Result<(), ModelFault>
        requires going { self.old.ended ≡ false }
        requires within { IsWithin self.old.listing.vars meaning }
        ensures { Takes (λ _. word place meaning ∷ []) self.old self.new result }
    {
        match meaning {
            Meaning::End => self.ended = true,
            Meaning::Literal(lit) => {
                if !self.listing.take(lit) {
                    return Err(refusal_at(place, Expected::Opposite));
                }
            }
            Meaning::Beyond => {}
            Meaning::TooGreat => return Err(too_great(place)),
            Meaning::Nothing => return Err(refusal_at(place, Expected::ModelLiteral)),
        }
        Ok(())
    }

    /// Reads a word after the first of a line of values.
    pub fn take_word(&mut self, place: Place, number: Number) -> Result<(), ModelFault>
        ensures { Takes (λ vars. word place (meant vars number) ∷ []) self.old self.new result }
    {
        if self.ended {
            return Err(refusal_at(place, Expected::ModelLiteral));
        }
        let meaning = meant(number, self.listing.vars);
        self.note_meaning(place, meaning)
    }

    /// Ends the text, and returns the model; values that began have to be ended by a 0.
    pub fn finish(self, place: Place) -> Result<Model, ModelFault>
        ensures { (vars : ℕ) (ss : List Symbol) → Knows vars ss self → ConcludesBy vars ss place result }
    {
        if self.begun && !self.ended {
            return Err(refusal_at(place, Expected::ModelZero));
        }
        Ok(Model {
            says: self.says,
            values: self.listing.values(),
        })
    }
}
