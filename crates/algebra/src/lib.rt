//! Lemmas on whole numbers for every crate above: equations of polynomials by a normal form, and products of inequalities.
//! They stand in proofs/; there is no code.
#![tactic(auto)]
