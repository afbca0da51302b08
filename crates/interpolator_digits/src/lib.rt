//! How the digits of a number, its exponent and a decimal are written.
//!
//! There is no code here: `specs/` defines the texts, and `proofs/` has the lemmas that the crates
//! above share. Read on at `Digits`, `Exponent` and `Decimals` in `specs/`.
#![tactic(auto)]
