//! Tables, tokens and answers go from thread to thread.
use crate::{
    Bar, BarRefused, Fill, FillRefused, LockTable, Look, RecoverRefused, RemoveRefused, Removed,
    Share, ShareRefused,
};
use annex_base::crosses;

fn cross_threads() {
    crosses::<LockTable>();
    crosses::<Share>();
    crosses::<Bar>();
    crosses::<Fill>();
    crosses::<Look>();
    crosses::<Removed>();
    crosses::<ShareRefused>();
    crosses::<BarRefused>();
    crosses::<FillRefused>();
    crosses::<RemoveRefused>();
    crosses::<RecoverRefused>();
}
