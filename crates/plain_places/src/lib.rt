//! The tables after one more step, and the queues of a history that tables stand for.
//!
//! `TablesStand` says that tables show what flows after a history, as `pipe_model` defines it. `no_tables` stand for
//! the empty history, and `tables_after` makes of tables that stand the ones that stand after one more step.
#![tactic(auto)]

mod batches;
mod moves;
mod places;
mod queues;
mod tables;

pub use queues::{
    chunk_now, closing_now, deliveries_now, inbox_now, lost_over_now, may_dispatch_now,
    open_demand_now, place_now, room_now, waiting_now,
};
pub use tables::{no_tables, tables_after};
