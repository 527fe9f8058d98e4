//! Places, batches and sends as plain tables, and the queues that can be read off them.
//!
//! `Tables` keeps where each message and each batch stands, and everything that was sent, in order. A contract sees it
//! by `view_in`, as `pipe_model` sees a history: each function here says its definition there, of that view.
#![tactic(auto)]

mod flow;
mod queues;
mod tables;

pub use flow::Flow;
pub use queues::{
    chunk, closing, inbox, is_batcher_stage, is_number, key_of, next_units, open_batch, units_on,
    waiting,
};
pub use tables::{BatchPlace, BatchRow, Leg, LegPlace, Tables, batch_row, place_of, sent_on};
