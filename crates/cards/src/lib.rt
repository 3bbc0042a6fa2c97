//! The pack, the shuffle of Knuth's Algorithm P, bridge deals and hands.
//!
//! Cards are numbered 0 to 51. A `Places` holds the places of one shuffle, a `Deal` says who has
//! each card, and a `Hand` counts what one seat has.
#![tactic(auto)]

mod around;
mod by_number;
mod candidates;
mod card;
mod deal;
mod fixed;
mod given;
mod hand;
mod honours;
pub mod laws;
mod limits;
mod masks;
mod order;
mod packed;
mod places;
mod seat;
mod suit;
mod weights;

pub use by_number::DealsByNumber;
pub use candidates::Candidates;
pub use card::Card;
pub use deal::Deal;
pub use fixed::Fixed;
pub use given::Given;
pub use hand::{Hand, Measure};
pub use honours::Honours;
pub use limits::{MAX_CANDIDATES, MAX_CAPACITY, MAX_WORKERS};
pub use order::Order;
pub use packed::Packed;
pub use places::Places;
pub use seat::Seat;
pub use suit::Suit;
pub use weights::CardWeights;
