//! Frames are carried between two repositories.
ghost use Rattle.std.specs.Prelude.{◌≡◌, ◌<◌, true, false};
ghost use Rattle.node_model.specs.Ends.{EndName};
ghost use Rattle.node_ends.specs.Carrying.{IsCarried, IsSlotCarried};
ghost use Rattle.node_ends.specs.Ends.{end_at, link_at, name_of};
ghost use Rattle.node_ends.specs.Invariant.{each_may_close};
ghost use Rattle.node_ends.specs.Joined.{AreCarried, AreJoined, BothPaired, end_with};

use crate::ends::Ends;
use crate::name::EndId;
use crate::places::place_in;
use link_ring::{End, carry};

// Carries frames between two ends.
fn carry_end(a: &mut Vec<End>, x: EndId, b: &mut Vec<End>, y: EndId)
    requires paired { BothPaired (link_at a.old.items (name_of x)) (link_at b.old.items (name_of y)) }
    requires close_a { each_may_close a.old.items ≡ true }
    requires close_b { each_may_close b.old.items ≡ true }
    ensures first { IsCarried (name_of x) (name_of y) a.old.items a.new.items b.old.items }
    ensures second { IsCarried (name_of y) (name_of x) b.old.items b.new.items a.old.items }
    ensures close_a { each_may_close a.new.items ≡ true }
    ensures close_b { each_may_close b.new.items ≡ true }
{
    let i = place_in(a, x);
    let j = place_in(b, y);
    carry(&mut a[i], &mut b[j]);
}

// Carries frames over the two connections of a slot.
fn carry_slot(a: &mut Vec<End>, a_number: u32, b: &mut Vec<End>, b_number: u32, slot: u32)
    requires client { BothPaired (link_at a.old.items (end_with b_number slot true)) (link_at b.old.items (end_with a_number slot false)) }
    requires server { BothPaired (link_at a.old.items (end_with b_number slot false)) (link_at b.old.items (end_with a_number slot true)) }
    requires close_a { each_may_close a.old.items ≡ true }
    requires close_b { each_may_close b.old.items ≡ true }
    ensures first { IsSlotCarried a_number b_number slot a.old.items a.new.items b.old.items }
    ensures second { IsSlotCarried b_number a_number slot b.old.items b.new.items a.old.items }
    ensures close_a { each_may_close a.new.items ≡ true }
    ensures close_b { each_may_close b.new.items ≡ true }
{
    let client = EndId {
        peer: b_number,
        slot,
        client: true,
    };
    let its_server = EndId {
        peer: a_number,
        slot,
        client: false,
    };
    carry_end(a, client, b, its_server);
    let server = EndId {
        peer: b_number,
        slot,
        client: false,
    };
    let its_client = EndId {
        peer: a_number,
        slot,
        client: true,
    };
    carry_end(a, server, b, its_client);
}

fn carry_slots(a: &mut Vec<End>, a_number: u32, b: &mut Vec<End>, b_number: u32)
    requires joined { AreJoined a_number b_number a.old.items b.old.items }
    requires close_a { each_may_close a.old.items ≡ true }
    requires close_b { each_may_close b.old.items ≡ true }
    ensures first { AreCarried a_number b_number a.old.items a.new.items b.old.items }
    ensures second { AreCarried b_number a_number b.old.items b.new.items a.old.items }
    ensures close_a { each_may_close a.new.items ≡ true }
    ensures close_b { each_may_close b.new.items ≡ true }
{
    for slot in 0..4 {
        carry_slot(a, a_number, b, b_number, slot);
    }
}

/// Carries the frames of all connections between two repositories, which have these numbers, to the ends that take them.
pub fn carry_ends(a: &mut Ends, a_number: u32, b: &mut Ends, b_number: u32)
    requires { AreJoined a_number b_number a.old b.old }
    ensures first { AreCarried a_number b_number a.old a.new b.old }
    ensures second { AreCarried b_number a_number b.old b.new a.old }
    ensures joined { AreJoined a_number b_number a.new b.new }
    ensures first_stand { (x : EndName) → end_at a.new x ≡ end_at a.old x }
    ensures second_stand { (x : EndName) → end_at b.new x ≡ end_at b.old x }
{
    carry_slots(&mut a.links.ends, a_number, &mut b.links.ends, b_number);
}
