//! Two callers of a recorded map, in threads of their own, and what is gathered of them.

mod callers;
mod fault;

pub use callers::gathered;
pub use fault::CallersFault;
