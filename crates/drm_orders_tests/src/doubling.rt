ghost use Rattle.std.specs.Prelude.{◌≡◌, ◌<◌};
ghost use Rattle.drm_explorer.specs.Exploring.{IsWay};
ghost use Rattle.drm_orders_tests.specs.Doubling.{Doubles, doubled, form_of, keeps};

use drm_explorer::System;
use std::alloc::{AllocError, Global};

/// A number below eight, at first 0. A move doubles it, adds one or not, and keeps three binary digits: so each number
/// is three moves away at most.
pub struct Doubling;

// The number after one move.
fn next(number: u8, more: bool) -> u8
    requires { number < 8 }
    ensures { result ≡ doubled number more }
{
    if more {
        (2 * number + 1) % 8
    } else {
        2 * number % 8
    }
}

// The number that a way leads to.
fn end_of(way: &[bool]) -> u8
    ensures below { result < 8 }
    ensures leads { IsWay Doubles 0 way.now result }
{
    let mut number = 0;
    for more in way {
        number = next(number, *more);
    }
    number
}

impl System for Doubling {
    type Play = u8;

    type Move = bool;

    ghost start = { λ _. 0 };

    ghost step = { λ _. Doubles };

    ghost form = { λ _. form_of };

    ghost keeps_form = { λ _. keeps };

    fn first(&self, alloc: Global) -> Result<Vec<u8>, AllocError> {
        Ok(vec![in alloc; 0]?)
    }

    fn moves(&self, alloc: Global, way: &[bool]) -> Result<Vec<(bool, Vec<u8>)>, AllocError> {
        let number = end_of(way);
        let even = vec![in alloc; next(number, false)]?;
        let odd = vec![in alloc; next(number, true)]?;
        Ok(vec![in alloc; (false, even), (true, odd)]?)
    }
}
