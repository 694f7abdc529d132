ghost use Rattle.std.specs.Prelude.{◌≡◌, ℕ, ◌+◌, ◌<◌, ◌≤◌, length, vec_capacity, IfOk};
ghost use Rattle.drm_fence.specs.Linked.{IsJoined, behind_of, before_of, linked_place};

use drm_types::FenceId;
use std::alloc::{AllocError, Global};

/// A place of a list that starts and ends at one place (`struct list_head`): the links to the places on both sides of
/// it. A link to a cell is the place of the cell. A link to the end is the number of all cells, in the list of each
/// fence, so that a link fits 16 bits however many fences there are.
#[derive(Clone, Copy, Debug)]
pub struct Links {
    /// The link to the place before this one.
    pub before: u16,
    /// The link to the place behind this one.
    pub behind: u16,
}

/// Makes this many places, each in a list of its own, with room for more.
pub fn empty_rings(alloc: Global, places: usize, more: u32) -> Result<Vec<Links>, AllocError>
    requires { places ≤ 4096 }
    ensures places { IfOk result (λ links. length links.items ≡ places) }
    ensures behind { IfOk result (λ links. (k : ℕ) → k < places → behind_of links.items k ≡ k) }
    ensures before { IfOk result (λ links. (k : ℕ) → k < places → before_of links.items k ≡ k) }
    ensures room { IfOk result (λ links. vec_capacity links ≡ places + more) }
{
    let mut links = Vec::with_capacity(alloc, places + more as usize)?;
    for place in 0..places {
        links.push_reserved(Links {
            before: place as u16,
            behind: place as u16,
        });
    }
    Ok(links)
}

/// Returns the place that a link in the list of this fence leads to.
pub fn place_of(cells: usize, fence: FenceId, link: u16) -> usize
    requires { cells ≤ 4096 }
    ensures { result ≡ linked_place cells fence link }
{
    let place = link as usize;
    if place < cells {
        place
    } else {
        cells + fence as usize
    }
}

/// Puts one place of the list of this fence before another: the two are neighbours from now on.
pub fn join(links: &mut Vec<Links>, cells: usize, fence: FenceId, before: u16, behind: u16)
    requires cells { cells ≤ 4096 }
    requires before { linked_place cells fence before < length links.old.items }
    requires behind { linked_place cells fence behind < length links.old.items }
    ensures joined { IsJoined links.old.items links.new.items cells fence before behind }
    ensures room { vec_capacity links.new ≡ vec_capacity links.old }
{
    links[place_of(cells, fence, before)].behind = behind;
    links[place_of(cells, fence, behind)].before = before;
}
