// Constraints that come and go.
ghost use Rattle.std.specs.Prelude.{◌≡◌};

use super::propagation::{engine_of, is_within, propagated, told};
use crate::cases::assert_found;
use crate::samples::linear;
use pb_unit::Engine;
use std::alloc::Global;

// Adds a constraint of three variables.
fn add(alloc: Global, engine: &mut Engine, text: &str) -> Option<u64>
    requires { engine.old.vars ≡ 3 }
    ensures { engine.new.vars ≡ 3 }
{
    let constraint = linear(alloc, text)?;
    if !is_within(constraint.terms(), 3) {
        return None;
    }
    engine.add(&constraint).ok()
}

// What the first constraint reaches alone, and its slack.
fn alone(alloc: Global, engine: &mut Engine) -> Option<String>
    requires { engine.old.vars ≡ 3 }
    ensures { engine.new.vars ≡ 3 }
{
    let reached = propagated(alloc, engine, 3)?;
    format!(in alloc; "{reached}; {:?}", engine.slack(0)).ok()
}

// Adds constraints of three variables, and returns their places.
fn places(alloc: Global, engine: &mut Engine, texts: &[&str]) -> Option<String>
    requires { engine.old.vars ≡ 3 }
    ensures { engine.new.vars ≡ 3 }
{
    let mut places = String::new(alloc);
    for text in texts {
        let place = add(alloc, engine, text)?;
        let place = format!(in alloc; " {place}").ok()?;
        places.push_str(place.as_str()).ok()?;
    }
    Some(places)
}

// The same with others beside it: their places, and what holds before and after.
fn beside(alloc: Global, engine: &mut Engine, texts: &[&str]) -> Option<String>
    requires { engine.old.vars ≡ 3 }
    ensures { engine.new.vars ≡ 3 }
{
    let places = places(alloc, engine, texts)?;
    let before = told(alloc, engine, 3)?;
    let reached = propagated(alloc, engine, 3)?;
    format!(in alloc; "{places}; {before}; {reached}").ok()
}

// What is left without the first.
fn without(alloc: Global, engine: &mut Engine) -> Option<String>
    requires { engine.old.vars ≡ 3 }
{
    let removed = (
        engine.remove(0),
        engine.remove(0),
        engine.remove(7),
        engine.slack(0),
    );
    let reached = propagated(alloc, engine, 3)?;
    format!(in alloc; "{removed:?}; {reached}").ok()
}

// What a constraint reaches alone, with others beside it, and what these reach once it is removed.
fn comes_and_goes(alloc: Global, engine: &mut Engine, others: &[&str]) -> Option<String>
    requires { engine.old.vars ≡ 3 }
{
    let alone = alone(alloc, engine)?;
    let beside = beside(alloc, engine, others)?;
    let without = without(alloc, engine)?;
    format!(in alloc; "{alone};{beside}; {without}").ok()
}

// The same of a text.
fn comes_and_goes_in(alloc: Global, text: &str, others: &[&str]) -> Option<String> {
    let mut engine = engine_of(alloc, 3, text)?;
    comes_and_goes(alloc, &mut engine, others)
}

#[test]
fn constraints_come_and_go(rt: HostRuntime) {
    let text = "3 x1 2 x2 1 x3 >= 3 ;";
    let found = comes_and_goes_in(rt.alloc(), text, &["1 ~x1 >= 1 ;", "1 ~x2 >= 1 ;"]);
    let expected = "; Some(3); 1 2; ; conflict; (true, false, false, None);  ~x1 ~x2";
    assert_found(&rt, found, expected, text);
    // What the constraint forced is taken back where another comes.
    let text = "2 x1 1 x2 >= 2 ;";
    let found = comes_and_goes_in(rt.alloc(), text, &["1 ~x1 >= 1 ;"]);
    let expected = " x1; Some(1); 1; ; conflict; (true, false, false, None);  ~x1";
    assert_found(&rt, found, expected, text);
}
