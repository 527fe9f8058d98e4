//! What leaves a pipeline with a job, and comes back with its answer.
//!
//! A `Job` says what a post is to do, and an `Answer` what that came to. A body holds what the post needs for it: a source,
//! a sink, a callback. `Works` is how a pipeline sees a body, `Houses` how one is filled and emptied; contracts see a body
//! as plain data. `take_out` and `put_back` move bodies out of a table by post and back.
#![tactic(auto)]

mod feed;
mod houses;
mod job;
mod several;
mod table;
mod works;

pub use feed::{Feed, FeedSources};
pub use houses::Houses;
pub use job::{Answer, Job, Outcome, Work};
pub use several::has_several_sources;
pub use table::{PLACES, place_of, put_back, take_out};
pub use works::Works;
