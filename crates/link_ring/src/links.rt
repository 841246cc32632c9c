//! The ends of all connections of a run.
ghost use Rattle.std.specs.Prelude.{◌≡◌, ◌<◌, ◌*◌, All, IfOk, replicate, vec_len};
ghost use Rattle.link_ring.specs.Ends.{fresh};
ghost use Rattle.link_ring.specs.Places.{end_place};

use crate::end::End;
use annex_base::NoMemory;
use std::alloc::Global;

/// The ends of one repository, eight for each repository's number: for each of the client's slots the end of this
/// side as client, and then as server (own).
#[derive(Debug, Drop)]
pub struct Links {
    pub ends: Vec<End>,
}

/// The place of an end among those of a repository. A slot is one of the client's four.
pub fn end_place(peer: u32, slot: u32, client: bool) -> usize
    requires { slot < 4 }
    ensures { result ≡ end_place peer slot client }
{
    let side = if client { 0 } else { 1 };
    peer as usize * 8 + slot as usize * 2 + side
}

fn new_ends(alloc: Global, count: usize) -> Result<Vec<End>, NoMemory>
    ensures { IfOk result (λ v. v.items ≡ replicate count fresh) }
{
    let mut ends = Vec::new(alloc);
    for _ in 0..count {
        ends.push(End::new(alloc)?)?;
    }
    Ok(ends)
}

/// The ends of all connections between so many repositories, in order of their numbers. None is open.
pub fn make_links(alloc: Global, repositories: u32) -> Result<Vec<Links>, NoMemory>
    ensures count { IfOk result (λ links. vec_len links ≡ repositories) }
    ensures fresh { IfOk result (λ links. All (λ l. l.ends.items ≡ replicate (repositories * 8) fresh) links.items) }
{
    let mut links = Vec::new(alloc);
    for _ in 0..repositories {
        links.push(Links {
            ends: new_ends(alloc, repositories as usize * 8)?,
        })?;
    }
    Ok(links)
}
