//! What a session does between two frames, and what a frame makes of it.
ghost use Rattle.std.specs.Prelude.{◌≡◌, ◌<◌, ◌^◌, ◌+◌, ◌≤◌, ℕ};
ghost use Rattle.node_model.specs.Sessions.{gave_bytes, sent_one, takes_from, takes_more, took_bytes};
ghost use Rattle.state_sessions.specs.Doings.{as_session, doing_of, doing_sent, number_in};

use annex_key::Key;
use run_data::FrameText;

/// What a session does (git-annex P2P protocol). How many bytes it has given, or taken, counts from 0.
#[derive(Drop)]
pub enum Doing {
    Waits,
    Guards {
        hold: u64,
        key: Key,
    },
    Gives {
        key: Key,
        at: u128,
        left: u64,
        good: bool,
    },
    Gave,
    Wants {
        key: Key,
        size: u64,
    },
    Takes {
        key: Key,
        size: u128,
        left: u64,
    },
    Took {
        key: Key,
        size: u128,
    },
}

/// A session: the version that was agreed on, 0 before, and what it does.
#[derive(Drop)]
pub struct Session {
    pub version: u64,
    pub doing: Doing,
}

/// Bytes of the key come, so many.
pub(crate) fn takes_more(key: Key, size: u128, left: u64) -> Doing
    ensures { doing_of result ≡ takes_more key size left }
{
    if left == 0 {
        Doing::Took { key, size }
    } else {
        Doing::Takes { key, size, left }
    }
}

/// The client says how many bytes it sends.
pub(crate) fn takes_from(doing: Doing, count: u64) -> Doing
    ensures value { doing_of result ≡ takes_from count (doing_of doing) }
    ensures small { (limit : ℕ) → 2 ^ 64 ≤ limit → number_in (doing_of doing) < limit → number_in (doing_of result) < limit }
{
    match doing {
        Doing::Wants { key, size } => takes_more(key, u128::from(size), count),
        other => other,
    }
}

/// It took so many bytes.
pub(crate) fn took_bytes(doing: Doing, count: u64) -> Doing
    requires { number_in (doing_of doing) < 2 ^ 127 }
    ensures value { doing_of result ≡ took_bytes count (doing_of doing) }
    ensures small { (limit : ℕ) → number_in (doing_of doing) < limit → number_in (doing_of result) < limit + 2 ^ 64 }
{
    match doing {
        Doing::Takes { key, size, left } => {
            takes_more(key, size + u128::from(count), left.saturating_sub(count))
        }
        other => other,
    }
}

/// It gave so many bytes.
fn gave_bytes(doing: Doing, count: u64) -> Doing
    requires { number_in (doing_of doing) < 2 ^ 127 }
    ensures value { doing_of result ≡ gave_bytes count (doing_of doing) }
    ensures small { (limit : ℕ) → number_in (doing_of doing) < limit → number_in (doing_of result) < limit + 2 ^ 64 }
{
    match doing {
        Doing::Gives {
            key,
            at,
            left,
            good,
        } => Doing::Gives {
            key,
            at: at + u128::from(count),
            left: left.saturating_sub(count),
            good,
        },
        other => other,
    }
}

fn after_sending(doing: Doing, body: &FrameText) -> Doing
    requires { number_in (doing_of doing) < 2 ^ 127 }
    ensures value { doing_of result ≡ doing_sent (doing_of doing) body.now }
    ensures small { (limit : ℕ) → number_in (doing_of doing) < limit → number_in (doing_of result) < limit + 2 ^ 64 }
{
    match body {
        FrameText::Bytes(count) => gave_bytes(doing, *count),
        FrameText::Line(_) => Doing::Gave,
        FrameText::Opening | FrameText::Closing => doing,
    }
}

impl Session {
    /// That of a connection that isn't open.
    pub(crate) fn new() -> Session
        ensures { result ≡ record { version = 0; doing = Doing.Waits } }
    {
        Session {
            version: 0,
            doing: Doing::Waits,
        }
    }

    /// It sent a piece, or its word on the pieces, unasked.
    pub(crate) fn sends(self, body: &FrameText) -> Session
        requires { number_in (doing_of self.doing) < 2 ^ 127 }
        ensures value { as_session result ≡ sent_one (as_session self) body.now }
        ensures small { (limit : ℕ) → number_in (doing_of self.doing) < limit → number_in (doing_of result.doing) < limit + 2 ^ 64 }
    {
        let Session { version, doing } = self;
        Session {
            version,
            doing: after_sending(doing, body),
        }
    }
}
