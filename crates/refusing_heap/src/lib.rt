//! An allocator that refuses chosen growths of the one that it stands on, and a run of a check with each growth
//! refused in turn.
#![tactic(auto)]

mod cases;
mod growths;
mod heap;
mod lines;
mod turns;

pub use cases::{Case, Heap, Said, Seen, Wrong, make_in_turn, refused_growth};
pub use growths::Refusal;
pub use heap::RefusingHeap;
pub use lines::{Line, listed, made, print_head, print_line, print_lines};
pub use turns::{EachGrowthFault, each_growth};
