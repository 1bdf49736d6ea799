//! Calls that are made twice, the second time with an allocation refused, and what they leave as bytes.
//!
//! A [`Scene`] is a list of calls at values that it holds, and can show what they have left. A [`Course`] makes the calls once with
//! memory, and once more at an equal scene while `tests/memory` refuses allocations: a call that tells that memory was wanted is to
//! have left what stood before it, and made again it is to answer and leave what it did the first time.
#![tactic(auto)]

mod course;
mod fused;
mod program;
mod scene;
pub mod shown;
pub mod texts;

pub use course::Course;
pub use fused::Fused;
pub use program::{Program, carry_out, run_all};
pub use scene::{Scene, Stop};
