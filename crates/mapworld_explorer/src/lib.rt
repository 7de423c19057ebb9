//! Every schedule of small programs of map calls: the outcomes that they come to, and one schedule to each.
//!
//! A [`Search`] goes from state to state of a world of maps, as `README.md` tells, and lists the [`Outcome`]s. A
//! [`Course`] is one schedule, step by step, with all that is seen on the way. Cases are played line by line by
//! [`failure_of`], and what they claim of all schedules is looked at by [`broken_claim`].
#![tactic(auto)]

mod checked;
mod course;
mod outcome;
mod play;
mod played;
mod reading;
mod search;
mod seen;
mod standing;
mod state;
mod told;
mod traced;
mod waits;
mod worlds;

pub use checked::{Broken, broken_claim, is_claim, is_so};
pub use course::{Bar, Course, Held, Point, Sleep, Told, Waking, course_of, starts};
pub use outcome::{Answering, Outcome};
pub use play::{Failure, failure_of};
pub use played::{Played, play_once};
pub use reading::outcome_behind;
pub use search::{Limit, Limits, Search};
pub use standing::may_be_fair;
pub use state::{Ahead, ahead_of};
pub use worlds::{ExploreFault, World, calls_of, world_behind, world_led_by, world_of};
