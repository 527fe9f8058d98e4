//! Acknowledgements on their way to a sink while a pipeline runs.
//!
//! A `LineFeed` holds a few lines, writes them to its sink in their order, and stops for good at the first write that fails. What
//! its sink got is at every moment a front of the text of the lines sent, and all of it after a flush that succeeds. An `AckFeed` is a
//! `Watch` over such a feed: shown a journal that grows, it goes along the rows that are new in the journal's log, and sends the lines
//! of each step that acknowledges something. So it keeps no state of the pipeline, and costs what there is to tell.
#![tactic(auto)]

mod feed;
mod lines;

pub use feed::{AckFeed, FeedSince};
pub use lines::{FeedEnd, LineFeed};
