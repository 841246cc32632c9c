//! Drops that ran alone: they are done exactly where the offers of their candidates are enough.
#![tactic(auto)]

mod laws;

pub use laws::local_drops_alone_are_done_where_offers_suffice;
