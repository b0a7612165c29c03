//! Identities between polynomials over the whole numbers, for the proofs of the crates above.
//!
//! The crate has no code. Its lemmas stand in `proofs/`, and crates above cite them there:
//!
//! - `NormalForm`: `by_ring e f r refl` proves that the expressions `e` and `f` have one value where their variables
//!   stand for the numbers `r`. Both are brought to a normal form, a sorted sum of monomials, which computes. So `refl`
//!   is the whole proof, and where it is refused the identity is false or a variable has the wrong number.
//! - `Expressions`: the expressions that `by_ring` reads, made of `var`, `num`, `add`, `sub` and `mul`.
//! - `Signs`: the sign of a product and of its factors, and cases by the order of two numbers.
#![tactic(auto)]
