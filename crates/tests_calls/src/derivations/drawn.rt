// Derivations of sums that are drawn.
use super::changed_lines::is_accepted_with;
use super::checking::is_accepted;
use crate::samples::families::{Files, Kind, Sum, made};
use std::alloc::Global;

// The next number of a linear congruential sequence.
fn draw(state: &mut u32) -> u32 {
    *state = state.wrapping_mul(1664525).wrapping_add(1013904223);
    *state / 65536
}

// Adds a term over a variable whose sign is drawn.
fn draw_term(
    alloc: Global,
    state: &mut u32,
    coef: u128,
    index: u32,
    text: &mut String,
) -> Option<()> {
    let sign = if draw(state) % 2 == 0 { "" } else { "~" };
    let term = format!(in alloc; "+{coef} {sign}x{} ", u64::from(index) + 1).ok()?;
    text.push_str(term.as_str()).ok()
}

fn push_end(alloc: Global, least: u128, text: &mut String) -> Option<()> {
    let end = format!(in alloc; ">= {least} ;\n").ok()?;
    text.push_str(end.as_str()).ok()
}

// That at least so many of so many literals are true, of the first variables.
fn draw_count(alloc: Global, state: &mut u32, count: u32, least: u32) -> Option<String> {
    let mut text = String::new(alloc);
    for index in 0..count {
        draw_term(alloc, state, 1, index, &mut text)?;
    }
    push_end(alloc, u128::from(least), &mut text)?;
    Some(text)
}

// A coefficient: 1, 9 and 10 stand somewhere, and no other is greater.
fn draw_coef(state: &mut u32, place: u32) -> u32 {
    match place {
        0 => 1,
        1 => 9,
        2 => 10,
        _ => 1 + draw(state) % 9,
    }
}

// That so many literals reach a drawn number, from 10 to 10 below the sum of all coefficients: so no literal is forced, and none has
// too great a coefficient. All numbers are so many times as great.
fn draw_weights(alloc: Global, state: &mut u32, count: u32, scale: u128) -> Option<String> {
    let shift = draw(state) % 8;
    let mut whole: u32 = 0;
    let mut text = String::new(alloc);
    for index in 0..count {
        let place = index.wrapping_add(shift).checked_rem(count)?;
        let coef = draw_coef(state, place);
        whole = whole.wrapping_add(coef);
        draw_term(
            alloc,
            state,
            scale.wrapping_mul(u128::from(coef)),
            index,
            &mut text,
        )?;
    }
    let more = draw(state).checked_rem(whole.wrapping_sub(19))?;
    let least = scale.wrapping_mul(u128::from(more.wrapping_add(10)));
    push_end(alloc, least, &mut text)?;
    Some(text)
}

// A family that is without weights, or of at most one.
fn draw_kind(state: &mut u32, bound: u32) -> Kind {
    match draw(state) % 8 {
        0 if bound == 1 => Kind::Pairs,
        1 if bound == 1 => Kind::Ladder,
        2 if bound == 1 => Kind::Grid,
        3 => Kind::Totalizer,
        4 => Kind::Tree,
        5 => Kind::Diagram,
        6 => Kind::Adder,
        _ => Kind::Counter,
    }
}

// A family that takes weights.
fn draw_weighted_kind(state: &mut u32) -> Kind {
    match draw(state) % 3 {
        0 => Kind::Adder,
        1 => Kind::Tree,
        _ => Kind::Diagram,
    }
}

// True if a derivation by a family is accepted, and without a drawn line if and only if that deletes. (What deletes a diagram's guard may be
// needed, too: the guards of all levels are one variable.)
fn is_accepted_whole(
    alloc: Global,
    state: &mut u32,
    kind: Kind,
    opb: &str,
    files: &Files,
) -> Option<bool> {
    let proof = files.proof.as_str();
    let whole = is_accepted(alloc, opb, files.cnf.as_str(), proof)?;
    let place = (draw(state) as usize).checked_rem(proof.lines().count())?;
    let deletes = proof.lines().nth(place)?.starts_with("del ");
    let broken = is_accepted_with(alloc, opb, files, place, "*")?;
    let is_expected = broken == deletes || deletes && matches!(kind, Kind::Diagram);
    Some(whole && is_expected)
}

// The same of a sum's derivation by a family.
fn is_derived(alloc: Global, state: &mut u32, kind: Kind, sum: Sum) -> Option<bool> {
    let files = made(alloc, kind, sum)?;
    is_accepted_whole(alloc, state, kind, sum.opb, &files)
}

// True if that is so of the next sum without weights.
fn is_next_derived(alloc: Global, state: &mut u32) -> Option<bool> {
    let bound = 1 + (draw(state) % 8).saturating_sub(4);
    let least = 2 + draw(state) % 7;
    let opb = draw_count(alloc, state, bound + least, least)?;
    let kind = draw_kind(state, bound);
    let sum = Sum {
        opb: opb.as_str(),
        first: bound + least + 1,
        loaded: 1,
        budget: 1000,
    };
    is_derived(alloc, state, kind, sum)
}

// True if that is so of the next sum with weights.
fn is_next_weighted_derived(alloc: Global, state: &mut u32, scale: u128) -> Option<bool> {
    let count = 4 + draw(state) % 4;
    let opb = draw_weights(alloc, state, count, scale)?;
    let kind = draw_weighted_kind(state);
    let sum = Sum {
        opb: opb.as_str(),
        first: count + 1,
        loaded: 1,
        budget: 1000,
    };
    is_derived(alloc, state, kind, sum)
}

// True if that is so of the sum at a place, without weights or with them: every second one has great ones.
fn is_derived_at(alloc: Global, state: &mut u32, place: u32, weighted: bool) -> Option<bool> {
    match (weighted, place % 2) {
        (false, _) => is_next_derived(alloc, state),
        (true, 0) => is_next_weighted_derived(alloc, state, 1),
        (true, _) => is_next_weighted_derived(alloc, state, 10000000000000000000000000000),
    }
}

// The place of the first of so many sums of which that is not so.
fn first_not_derived(alloc: Global, count: u32, weighted: bool) -> Option<u32> {
    let mut state: u32 = 1;
    for place in 0..count {
        if is_derived_at(alloc, &mut state, place, weighted) != Some(true) {
            return Some(place);
        }
    }
    None
}

#[test]
fn drawn_sums_are_derived(rt: HostRuntime) {
    let plain = first_not_derived(rt.alloc(), 50, false);
    let weighted = first_not_derived(rt.alloc(), 50, true);
    assert!(rt;
        plain == None && weighted == None,
        "at {plain:?}, with weights at {weighted:?}"
    );
}

// True if that is so of at most 40 of 70 by a totalizer, whose root goes by blocks of its parts' outputs.
fn is_large_derived(alloc: Global) -> Option<bool> {
    let mut state: u32 = 1;
    let opb = draw_count(alloc, &mut state, 70, 30)?;
    let sum = Sum {
        opb: opb.as_str(),
        first: 71,
        loaded: 1,
        budget: 1000,
    };
    is_derived(alloc, &mut state, Kind::Totalizer, sum)
}

#[test]
fn a_large_totalizer_is_derived(rt: HostRuntime) {
    let derived = is_large_derived(rt.alloc());
    assert!(rt; derived == Some(true), "{derived:?}");
}

// True if that is so of 20 weights by a diagram, which are enough for guards.
fn is_guarded_derived(alloc: Global) -> Option<bool> {
    let mut state: u32 = 1;
    let opb = draw_weights(alloc, &mut state, 20, 1)?;
    let sum = Sum {
        opb: opb.as_str(),
        first: 21,
        loaded: 1,
        budget: 1000,
    };
    is_derived(alloc, &mut state, Kind::Diagram, sum)
}

#[test]
fn a_diagram_of_many_terms_is_derived(rt: HostRuntime) {
    let derived = is_guarded_derived(rt.alloc());
    assert!(rt; derived == Some(true), "{derived:?}");
}
