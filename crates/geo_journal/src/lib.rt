//! One history for all threads, from its first step on, in the proofs alone.
//!
//! A [`Journal`] lies under a lock and is, to contracts, all steps that were ever noted in it, whoever noted them; each seat has a
//! [`Mark`], which is the steps of that seat, just these and in order, and a beginning of the history that it has seen. None of this is
//! there when the program runs but one word that is always 0, and no memory is asked for with a step. It stands on a table whose rule
//! ties all passes together (the kit's `atomic_table`), and knows what a step is, and nothing of sites, locks and threads.
#![tactic(auto)]

pub mod journal;
pub mod table;

pub use journal::{Journal, Mark, Unnamed};
pub use table::{Room, Start};
