//! Many sources as one: their lines, each whole, those of each source in order.
//!
//! A `LineMerge` goes round its sources and hands out the next line that one of them has. `IsMergedFrom` is what it keeps over
//! every list of calls: the lines that it gave from each source are, in order, the first lines of what that source gave and
//! has left. Its clauses on bytes hold where the source tells them.
#![tactic(auto)]

mod found;
mod item;
mod laws;
mod list;
mod merge;
mod order;
mod stream;
mod streams;
mod tries;

pub use item::{MergeEnd, MergeItem};
pub use laws::{merged_lines_are_first, whole_merges_have_all_lines};
pub use list::SourceList;
pub use merge::{LineMerge, MAX_STREAMS};
