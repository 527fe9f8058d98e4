//! Boxes of a stock, handed out to the posts of a topology and given back in their order.
//!
//! `hand_out` makes a table of bodies in which every post of the topology has its own: a producer's is bare, and a post that
//! has a callback holds a box of its kind, armed with the spec of its stage. Boxes of a kind go to the posts that need one in
//! order of stage and slot; what is not needed is kept. `take_back` gives the boxes back in the order in which they came.
//! A stock suffices where `shortage` of `topology_needs`, asked with its `boxes_in`, finds none.
#![tactic(auto)]

ghost use Rattle.std.specs.Prelude.{◌≡◌, ℕ, Bool, List, length, Option, None};
ghost use Rattle.pipe_types.specs.{Sound.{IsSound}, declared.topology.Kind.{Kind}, declared.topology.StageSpec.{StageSpec}, declared.topology.Topology.{Topology}};
ghost use Rattle.stage_bodies.specs.Seen.{BodySeen};
ghost use Rattle.body_laws.specs.Ready.{IsFilled};
ghost use Rattle.edge_names.specs.{Seen.{EdgesSeen}, Gates.{ArePaces}, Supplies.{Feeds, FeedsProducers, by_name}, Opened.{AreHome, AreOpened}};
ghost use Rattle.topology_needs.specs.Needs.{boxes_in as boxes_by_kind, shortage_of};
ghost use Rattle.box_stock.specs.{Homes.{Suffices}, Lends.{AreHandedOut, AreStillThere, CallbacksRemain}, declared.handing.Slip.{Slip}};

mod arming;
mod boxed;
mod handing;
mod homes;
mod returning;
mod tables;

pub use boxed::{Boxed, Carries};
pub use handing::{Lent, Slip, hand_out};
pub use homes::{boxes_in, home_of};
pub use returning::take_back;

/// A stock of which no kind is short suffices.
#[tactic(auto, using(crate::proofs::Located::suffices))]
pub fn stocks_without_shortage_suffice()
    ensures { (topology : Topology) (kinds : List Kind) → shortage_of topology (boxes_by_kind kinds) ≡ None → Suffices topology kinds }
{}

/// A table that was handed out is filled once everything is opened.
pub fn opened_tables_are_filled()
    ensures { (feeds : Feeds) (topology : Topology) (edges : EdgesSeen) (table now : ℕ → Option BodySeen) → IsSound topology → FeedsProducers feeds.origin topology → ArePaces feeds.pace → AreHandedOut topology table
        → AreOpened feeds topology (length topology.stages) edges table now → IsFilled topology now }
{}

/// A sound topology names the source of each producer.
#[tactic(auto, using(crate::proofs::Filled::names_feed))]
pub fn names_feed_producers()
    ensures { (splits : Bool) (topology : Topology) → IsSound topology → FeedsProducers (by_name splits) topology }
{}

/// In a table that was handed out every stage that is supplied with something has its body.
#[tactic(auto, using(crate::proofs::Filled::homes))]
pub fn handed_out_tables_have_homes()
    ensures { (feeds : Feeds) (topology : Topology) (table : ℕ → Option BodySeen) → AreHandedOut topology table → AreHome feeds topology table }
{}

/// Where each post of the topology that had a callback has one still, the boxes that were lent are all there.
#[tactic(auto, using(crate::proofs::Staying::still))]
pub fn lent_boxes_stay<C>()
    ensures { (slips : List (Slip C)) (topology : Topology) (table now : ℕ → Option BodySeen) → AreHandedOut topology table → AreStillThere slips table
        → CallbacksRemain topology table now → AreStillThere slips now }
{}
