//! How joins go, on plain values, and the laws of them: of two registers the newer stays, and of two vectors the greater entry at
//! each place. `specs/` has the definitions, `proofs/` that each join is associative, commutative and idempotent.
//!
//! It has no code. A lattice cites these laws where it is implemented, and there it may cite the `specs` of its own crate and what
//! stands in the crates below, but no proof of its own crate.
#![tactic(auto)]
