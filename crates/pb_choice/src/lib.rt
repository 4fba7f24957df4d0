//! How constraints are encoded: what may be chosen, which family is, its clauses, and their derivation.
#![tactic(auto)]

mod asking;
mod choosing;
mod chosen;
mod derivation;
mod emission;
mod equal;
mod equal_derivation;
mod equal_halves;
mod equal_laws;
mod equal_planning;
mod held;
mod kept;
mod known;
mod laws;
mod lent;
mod planning;
mod plans;
mod reducing;
mod residual;
mod treatment;
mod within;

pub use equal::EqualPlan;
pub use equal_laws::{
    equalities_derive, equalities_encode, equalities_force, statements_have_halves,
};
pub use equal_planning::{plan_adders, plan_equal};
pub use kept::{Kept, plan_kept};
pub use laws::{clauses_encode, clauses_force, constraints_derive};
pub use planning::{plan, plan_adder};
pub use plans::{Counts, Plan};
pub use treatment::Treatment;
