//! Statements on lists, options and tests that the proofs of several crates use, where the toolchain's library has none.
//!
//! There is no code: the statements stand in `proofs/`, each with its proof. A statement that one crate alone uses stands in that
//! crate. The one definition is `Has`: a value stands in a list.
//!
//! What is proved: each statement. Nothing here must be believed.
#![tactic(auto)]
