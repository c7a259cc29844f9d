//! The words that specifications, contracts and proofs import, from one place: `specs/Types` passes on the types, numbers
//! and definitions of `seg_base`, `proofs/Lemmas` what is cited of the standard library. It has no code. It is a crate of
//! its own because a crate's types are passed on only by another crate.
#![tactic(auto)]
