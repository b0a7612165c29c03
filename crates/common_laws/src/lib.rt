//! Definitions and lemmas that crates of different layers use alike, for their contracts and proofs.
//!
//! The crate has no code. What it holds stands in `specs/` and `proofs/`, and crates above cite it there:
//!
//! - `First` of `specs/`: the first of the refusals that stand, in an order.
//! - `First` of `proofs/`: which refusal is first, in lists that are put together or made by index.
//! - `Booleans`: when two tests are one, and conjunctions as types.
//! - `Orders`: what an `Ordering` or a test of two numbers tells, and cases by order.
//! - `Sizes`: absolute values of integers.
//! - `Extremes`: the lesser and the greater of two numbers.
//! - `Lists`: ranges, equal maps, and what holds of each element.
//! - `Options`: what holds of what an `Option` or a `Result` holds.
#![tactic(auto)]
