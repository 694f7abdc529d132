//! Numbers for names, in the order in which the names were met.

ghost use Rattle.std.specs.Prelude.{◌≡◌, [], length, IfOk, OnErr, OnOk};
ghost use Rattle.drm_trace.specs.Names.{number_in, placed_in, with_name};

use std::alloc::{AllocError, Global};
use std::collections::HashMap;
use std::marker::Model;

/// Names of two numbers each, which are numbered from 0 in the order in which they were met. Contracts see the list of
/// them.
#[derive(Drop)]
pub struct Names {
    numbers: HashMap<(u64, u64), u32>,
    list: Vec<(u64, u64)>,
}

impl Model for Names {
    ghost use Rattle.std.specs.Prelude.{◌≡◌, ◌<◌, ◌^◌, ℕ, List, vec_len};
    ghost use Rattle.std.specs.HashMap.{get};
    ghost use Rattle.drm_trace.specs.Names.{is_pair, placed_in};

    ghost Value = { List (ℕ × ℕ) };

    ghost view = { λ n. n.list.items };

    ghost invariant = { λ n. (vec_len n.list < 2 ^ 32) × ((q : ℕ × ℕ) → get is_pair n.numbers q ≡ placed_in n.list.items q) };
}

impl Names {
    /// Makes an empty list of names.
    pub(crate) fn new(alloc: Global) -> Names
        ensures { result ≡ [] }
    {
        Names {
            numbers: HashMap::new(alloc),
            list: Vec::new(alloc),
        }
    }

    /// Returns how many names there are.
    pub fn len(&self) -> u32
        ensures { result ≡ length self.now }
    {
        self.list.len() as u32
    }

    /// Lends the names, in the order of their numbers.
    pub fn as_slice(&self) -> &[(u64, u64)]
        ensures { result.now ≡ self.now }
    {
        &self.list
    }

    /// Returns the number of a name, if it was met.
    pub(crate) fn find(&self, name: (u64, u64)) -> Option<u32>
        ensures { result ≡ placed_in self.now name }
    {
        self.numbers.get(&name).copied()
    }

    /// Returns the number of a name, which is added if it is new. The names stay as they were if memory is out.
    pub(crate) fn number(&mut self, name: (u64, u64)) -> Result<u32, AllocError>
        ensures number { IfOk result (λ n. n ≡ number_in self.old name) }
        ensures list { OnOk result (self.new ≡ with_name self.old name) }
        ensures refused { OnErr result (self.new ≡ self.old) }
    {
        if let Some(number) = self.numbers.get(&name) {
            return Ok(*number);
        }
        let count = self.list.len();
        if count >= u32::MAX as usize {
            return Err(AllocError);
        }
        let number = count as u32;
        self.list.push(name)?;
        match self.numbers.insert(name, number) {
            Ok(_) => Ok(number),
            Err(_) => {
                self.list.pop();
                Err(AllocError)
            }
        }
    }
}
