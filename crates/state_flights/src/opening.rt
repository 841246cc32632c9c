//! Openings of connections.
ghost use Rattle.std.specs.Prelude.{◌≡◌};
ghost use Rattle.run_model.specs.Frames.{way_of};
ghost use Rattle.state_flights.specs.Ways.{opening_of, way_sent};

use run_data::FrameView;

/// An opening of a connection: the client, the server, the client's slot, and the number of the opening, from 1 (own).
#[derive(Clone, Copy, Debug, PartialEq, Eq, Hash)]
pub struct Opening {
    pub client: u32,
    pub server: u32,
    pub slot: u32,
    pub epoch: u32,
}

fn between(client: u32, server: u32, frame: &FrameView) -> Opening
    ensures { result ≡ record { client = client; server = server; slot = frame.now.slot; epoch = frame.now.epoch } }
{
    Opening {
        client,
        server,
        slot: frame.slot,
        epoch: frame.epoch,
    }
}

/// The opening to which a frame belongs that this repository takes.
pub(crate) fn opening_taken(repo: u32, frame: &FrameView) -> Opening
    ensures { result ≡ opening_of (way_of repo frame.now) }
{
    if frame.up {
        between(frame.peer, repo, frame)
    } else {
        between(repo, frame.peer, frame)
    }
}

/// The opening to which a frame belongs that this repository sends.
pub(crate) fn opening_sent(repo: u32, frame: &FrameView) -> Opening
    ensures { result ≡ opening_of (way_sent repo frame.now) }
{
    if frame.up {
        between(repo, frame.peer, frame)
    } else {
        between(frame.peer, repo, frame)
    }
}
