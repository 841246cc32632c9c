//! The orders of removals that were sent.
ghost use Rattle.std.specs.Prelude.{◌≡◌, ◌<◌, None, option_copied, OnOk};
ghost use Rattle.indexmap.specs.IndexMap.{spare};
ghost use Rattle.run_audit.specs.Orders.{after_order, name_sent, name_taken, proof_at};
ghost use Rattle.run_audit.specs.declared.orders.OrderName.{OrderName as AnOrder};

use annex_base::NoMemory;
use indexmap::IndexMap;
use run_data::{FrameView, Proof};
use std::alloc::Global;

/// The frame of an order: the client that sent it, the server, the client's slot, the number of the opening of the connection, from 1,
/// and the frame's own number, from 1 in each opening (own).
#[derive(Clone, Copy, Debug, PartialEq, Eq, Hash)]
pub struct OrderName {
    pub client: u32,
    pub server: u32,
    pub slot: u32,
    pub epoch: u32,
    pub seq: u64,
}

/// The name of a frame that this repository sends up.
pub(crate) fn name_sent(repo: u32, frame: &FrameView) -> OrderName
    ensures { result ≡ name_sent repo frame.now }
{
    OrderName {
        client: repo,
        server: frame.peer,
        slot: frame.slot,
        epoch: frame.epoch,
        seq: frame.seq,
    }
}

/// The name of a frame from a client that this repository takes.
pub(crate) fn name_taken(repo: u32, frame: &FrameView) -> OrderName
    ensures { result ≡ name_taken repo frame.now }
{
    OrderName {
        client: frame.peer,
        server: repo,
        slot: frame.slot,
        epoch: frame.epoch,
        seq: frame.seq,
    }
}

/// An order, and the need and the evidence that its drop had as it was sent.
#[derive(Drop)]
pub struct Ordered {
    pub name: OrderName,
    pub proof: Proof,
}

/// For each order that was sent the need and the evidence that its drop had then (own).
#[derive(Drop)]
pub struct Orders {
    kept: IndexMap<OrderName, Proof>,
}

impl Orders {
    pub(crate) fn new(alloc: Global) -> Orders
        ensures { (name : AnOrder) → proof_at result name ≡ None }
    {
        Orders {
            kept: IndexMap::new(alloc),
        }
    }

    /// What is kept for an order.
    pub(crate) fn proof(&self, name: OrderName) -> Option<&Proof>
        ensures { option_copied result ≡ proof_at self.now name }
    {
        self.kept.get(&name)
    }

    /// Makes room for one more. The orders stay.
    pub(crate) fn reserve(&mut self) -> Result<(), NoMemory>
        ensures room { OnOk result (0 < spare self.new.kept) }
        ensures same { self.new.kept.entries ≡ self.old.kept.entries }
    {
        self.kept.reserve(1)?;
        Ok(())
    }

    /// Keeps an order that an entry sends, if it is one. It takes no memory.
    pub(crate) fn keep(&mut self, ordered: Option<Ordered>)
        requires { 0 < spare self.old.kept }
        ensures { (name : AnOrder) → proof_at self.new name ≡ after_order ordered name (proof_at self.old name) }
    {
        match ordered {
            Some(Ordered { name, proof }) => {
                self.kept.insert(name, proof).unwrap();
            }
            None => {}
        }
    }
}
