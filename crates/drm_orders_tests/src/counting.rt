//! What is counted of all orders of a script.

use drm_core::Event;
use drm_explorer::{Exploration, explore};
use drm_job::Draft;
use drm_orders::Orders;
use drm_scene::{Move, Scene};
use drm_script::{Events, read_script};
use std::alloc::{AllocError, Global};

/// What was counted.
#[derive(Clone, Copy, Debug, PartialEq, Eq)]
pub struct Counted {
    /// How many plays there are, up to what decides nothing.
    pub states: usize,
    /// How many moves they have together.
    pub moves: usize,
    /// How many moves the farthest of them is away.
    pub longest: usize,
    /// How many of them are stuck.
    pub stuck: usize,
    /// In how many of them all is done.
    pub over: usize,
}

fn all_events(alloc: Global, events: Events) -> Result<Vec<Event<Draft>>, AllocError> {
    let mut all = Vec::new(alloc);
    let mut rest = events.into_left();
    while let Some(event) = rest.next() {
        all.push(event)?;
    }
    Ok(all)
}

fn count_told(
    alloc: Global,
    orders: &Orders,
    found: &Exploration<Move>,
) -> Result<Counted, AllocError> {
    let mut counted = Counted {
        states: found.ways.len(),
        moves: 0,
        longest: 0,
        stuck: 0,
        over: 0,
    };
    for place in 0..found.ways.len() {
        let way = found.ways.way(alloc, place)?;
        let moves = found.moves.get(place).copied().unwrap_or(0);
        counted.moves = counted.moves.saturating_add(moves);
        counted.longest = counted.longest.max(way.len());
        let stage = orders.scene().stage_at(alloc, way.as_slice())?;
        if orders.scene().is_over(&stage.play) {
            counted.over = counted.over.saturating_add(1);
        } else if moves == 0 {
            counted.stuck = counted.stuck.saturating_add(1);
        }
    }
    Ok(counted)
}

/// What is counted of all orders of the script that the text spells, if it spells one and has no more than so many
/// plays.
pub fn count_orders(
    alloc: Global,
    text: &[u8],
    backs_off: bool,
    reaps: bool,
    most: usize,
) -> Result<Option<Counted>, AllocError> {
    let Ok(script) = read_script(alloc, text) else {
        return Ok(None);
    };
    let spec = script.spec;
    let events = all_events(alloc, script.lines)?;
    let scene = Scene::of_events(alloc, spec, events, backs_off, reaps)?;
    let orders = Orders::of(scene);
    match explore(alloc, &orders, most)? {
        Some(found) => Ok(Some(count_told(alloc, &orders, &found)?)),
        None => Ok(None),
    }
}
