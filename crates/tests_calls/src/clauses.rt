//! Tests over clauses: propagation, CNF text that is read and written, and refutations.
mod changes;
mod clause_reader;
mod propagation;
mod refutations;
mod rounds;
mod settling;
mod writers;
