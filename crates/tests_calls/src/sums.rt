//! Tests over constraints, families of sums, plans and whole problems.
mod bound_tables;
mod constraints;
mod equalities;
mod exact_sums;
mod families;
mod plans;
mod short_sink;
mod streams;
