//! What can be read off a list of steps with no more than the steps: counts, posts, contents and sources.
//!
//! A list stands oldest first, as a journal is written; contracts speak of its history, which is the list turned
//! round. Each function says its definition in `pipe_model`, of that history. Nothing is kept from call to call, so
//! each takes time in the length of the list, or more. A count that outgrows its width, which takes more than four
//! thousand million steps, is answered as want of memory.
#![tactic(auto)]

mod children;
mod contents;
mod counts;
mod posts;
mod sources;

pub use children::{crashes, runs_again};
pub use contents::{Seen, arrivals, content, gathers, has_crash, producer_of, unit_no};
pub use counts::{
    accepted, accepted_bytes, asked, closed, controls, incarnation, now, plus, same_sub,
};
pub use posts::{answers, has_post_out, in_slot, is_out, last_take, out_from, puts_out};
pub use sources::{
    all_ended, fetch_out, fetches_out, gathered_at, has_drained, has_ended, has_halted,
    is_batch_processor, is_batcher, is_current, is_early, is_no_fetch_out, is_processor,
    is_producer, is_supervisor, may_control, may_restart, quiet_row, rests, role_of, takes,
};
