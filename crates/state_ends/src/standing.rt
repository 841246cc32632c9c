//! How one end of a connection stands.
ghost use Rattle.std.specs.Prelude.{◌≡◌, ◌^◌};
ghost use Rattle.node_model.specs.Ends.{end_sends, end_takes, never};
ghost use Rattle.state_ends.specs.Bounds.{IsBelow};

use run_data::FrameText;
use std::marker::Model;

/// How an end stands: the opening that it is at, whether it is open, and how many frames it has sent since (own).
#[derive(Clone, Copy, Debug, PartialEq, Eq)]
pub struct Standing {
    pub epoch: u128,
    pub opened: bool,
    pub sent: u128,
}

impl Model for Standing {
    ghost use Rattle.node_model.specs.Ends.{End};

    ghost Value = { End };

    ghost view = { λ c. record { epoch = c.epoch; opened = c.opened; sent = c.sent } };

    ghost inverse = { λ c. record { epoch = c.epoch; opened = c.opened; sent = c.sent } };
}

impl Standing {
    /// That of an end that was never open.
    pub(crate) fn never() -> Standing
        ensures { result ≡ never }
    {
        Standing {
            epoch: 0,
            opened: false,
            sent: 0,
        }
    }

    /// The end after it sent a frame.
    pub(crate) fn sends(self, body: &FrameText) -> Standing
        requires { IsBelow (2 ^ 127) self }
        ensures { result ≡ end_sends self body.now }
    {
        match body {
            FrameText::Opening => Standing {
                epoch: self.epoch + 1,
                opened: true,
                sent: 1,
            },
            FrameText::Closing => Standing {
                epoch: self.epoch,
                opened: false,
                sent: self.sent + 1,
            },
            _ => Standing {
                epoch: self.epoch,
                opened: self.opened,
                sent: self.sent + 1,
            },
        }
    }

    /// The end after it took a frame of this epoch.
    pub(crate) fn takes(self, epoch: u32, body: &FrameText) -> Standing
        ensures { result ≡ end_takes self epoch body.now }
    {
        match body {
            FrameText::Opening => Standing {
                epoch: u128::from(epoch),
                opened: true,
                sent: 0,
            },
            FrameText::Closing => Standing {
                epoch: self.epoch,
                opened: false,
                sent: self.sent,
            },
            _ => self,
        }
    }
}
