//! The fences that a draft names.

ghost use Rattle.std.specs.Prelude.{◌≡◌, [], ◌∷◌, ◌++◌, length, IfOk, OnOk, OnErr};
ghost use Rattle.drm_types.specs.Firsts.{is_nil};

use crate::ShortList;
use drm_types::FenceId;
use std::alloc::{AllocError, Global};
use std::marker::Model;

/// A list of fences that contracts see as a list. They lie in a box, since most jobs name none: an empty list takes no
/// memory, and half of the room of a `ShortList` in its owner.
#[derive(Drop)]
pub struct FenceList {
    alloc: Global,
    fences: Option<Box<ShortList<FenceId>>>,
}

impl Model for FenceList {
    ghost use Rattle.std.specs.Prelude.{ℕ, List, []};
    ghost use Rattle.std.specs.Option.{option_map_or};

    ghost Value = { List ℕ };

    ghost view = { λ list. option_map_or (λ fences. fences.value) list.fences [] };
}

impl FenceList {
    /// Makes an empty list, which takes no memory.
    pub fn new(alloc: Global) -> FenceList
        ensures { result ≡ [] }
    {
        FenceList {
            alloc,
            fences: None,
        }
    }

    /// Makes the list of these fences.
    pub fn from_slice(alloc: Global, fences: &[FenceId]) -> Result<FenceList, AllocError>
        ensures { IfOk result (λ list. list ≡ fences.now) }
    {
        if fences.is_empty() {
            return Ok(FenceList::new(alloc));
        }
        let fences = Box::new(alloc, ShortList::from_slice(alloc, fences)?)?;
        Ok(FenceList {
            alloc,
            fences: Some(fences),
        })
    }

    /// Lends the fences.
    #[inline]
    pub fn as_slice(&self) -> &[FenceId]
        ensures { result.now ≡ self.now }
    {
        match &self.fences {
            Some(fences) => fences.as_slice(),
            None => &[],
        }
    }

    /// Returns how many fences there are.
    #[inline]
    pub fn len(&self) -> usize
        ensures { result ≡ length self.now }
    {
        self.as_slice().len()
    }

    /// Returns whether there is no fence.
    #[inline]
    pub fn is_empty(&self) -> bool
        ensures { result ≡ is_nil self.now }
    {
        self.as_slice().is_empty()
    }

    /// Adds a fence at the end. A refusal of memory leaves the list as it was.
    pub fn push(&mut self, fence: FenceId) -> Result<(), AllocError>
        ensures ok { OnOk result (self.new ≡ self.old ++ fence ∷ []) }
        ensures err { OnErr result (self.new ≡ self.old) }
    {
        if let Some(fences) = &mut self.fences {
            return fences.push(fence);
        }
        let mut fences = ShortList::new(self.alloc);
        fences.push(fence)?;
        self.fences = Some(Box::new(self.alloc, fences)?);
        Ok(())
    }
}
