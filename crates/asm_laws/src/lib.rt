//! What the assembler's expansions do when a hart runs them: a number that is loaded is in its register, a label's address
//! too, and an offset leads to its target. And what products and quotients are, said of whole numbers.
#![tactic(auto)]

mod laws;
mod products;
