//! Which numbers the small system leads to, by which ways.

use crate::Doubling;
use drm_explorer::{cover, explore};
use std::test::Fail;

#[test]
fn tells_each_number_once_by_a_shortest_way(rt: HostRuntime) -> Result<(), Fail> {
    let found = explore(rt.alloc(), &Doubling, 8)?.ok_or("there are eight")?;
    let mut lengths = Vec::new(rt.alloc());
    for place in 0..found.ways.len() {
        lengths.push(found.ways.way(rt.alloc(), place)?.len())?;
    }
    assert_eq!(rt; lengths.as_slice(), [0, 1, 2, 2, 3, 3, 3, 3].as_slice());
    assert_eq!(rt; found.moves.as_slice(), [2; 8].as_slice());
    Ok(())
}

#[test]
fn tells_the_moves_that_lead_to_known_numbers(rt: HostRuntime) -> Result<(), Fail> {
    let found = explore(rt.alloc(), &Doubling, 8)?.ok_or("there are eight")?;
    assert_eq!(rt;
        found.others.as_slice(),
        [
            (0, false),
            (4, false),
            (4, true),
            (5, false),
            (5, true),
            (6, false),
            (6, true),
            (7, false),
            (7, true)
        ]
        .as_slice()
    );
    Ok(())
}

#[test]
fn covers_each_move_by_as_many_ways_as_lead_to_known_numbers(rt: HostRuntime) -> Result<(), Fail> {
    let found = explore(rt.alloc(), &Doubling, 8)?.ok_or("there are eight")?;
    let lasts = cover(rt.alloc(), &Doubling, &found)?;
    assert_eq!(rt; lasts.len(), 9);
    Ok(())
}

#[test]
fn gives_up_where_there_are_more_than_asked_for(rt: HostRuntime) -> Result<(), Fail> {
    assert!(rt; explore(rt.alloc(), &Doubling, 7)?.is_none());
    Ok(())
}
