//! Generated records: what producers read in place of the sources that a topology names.
//!
//! The records follow from a seed alone, and go to the producers in turn. `Made` is a supply of `edge_names`: each producer's
//! source is made of the records that are its own, and no call is made for it and nothing of it is given back. Sinks and the
//! control source are opened by name, as in every run.
#![tactic(auto)]

ghost use Rattle.std.specs.Prelude.{ℕ};
ghost use Rattle.pipe_types.specs.declared.topology.Topology.{Topology};
ghost use Rattle.edge_names.specs.Supplies.{FeedsProducers};
ghost use Rattle.made_sources.specs.Feeds.{made_feeds};

mod records;
mod source;
mod supply;

pub use records::{made_bytes, made_source, records_are_lines};
pub use source::MadeSource;
pub use supply::Made;

/// Every producer has its records.
#[tactic(auto, using(crate::proofs::Feeding::all_fed))]
pub fn made_records_feed_producers()
    ensures { (seed count producers : ℕ) (topology : Topology) → FeedsProducers (made_feeds seed count producers) topology }
{}
