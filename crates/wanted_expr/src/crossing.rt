//! Expressions go from thread to thread.
use crate::{Among, Claimant, Expr, ExprFault, Facts, Member, Word};
use annex_base::crosses;

fn cross_threads() {
    crosses::<Among>();
    crosses::<Claimant>();
    crosses::<Expr>();
    crosses::<ExprFault>();
    crosses::<Facts>();
    crosses::<Member>();
    crosses::<Word>();
}
