//! What a topology needs before it can run.
//!
//! `posts` and `need` count the posts that have a callback, of a stage and of a kind, and `shortage` names the first kind
//! of which a stock has too few boxes. `subscriptions` counts the subscriptions with which the pipeline begins.
#![tactic(auto)]

mod feeding;
pub mod laws;
mod needs;
mod stock;

pub use feeding::subscriptions;
pub use needs::{need, posts, shortage};
pub use stock::{Boxes, Shortage};
