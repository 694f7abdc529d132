//! The lists of a draft.

ghost use Rattle.std.specs.Prelude.{◌≡◌, [], ◌∷◌, ◌++◌, length, IfOk, OnOk, OnErr};
ghost use Rattle.drm_types.specs.Firsts.{is_nil};

use std::alloc::{AllocError, Global};
use std::marker::Model;

/// How many items there is room for where the second one comes.
const FEW: usize = 4;

/// Where the items stand.
#[derive(Drop)]
enum Items<T> {
    Empty,
    One([T; 1]),
    Many(Vec<T>),
}

/// A list that contracts see as a list. A single item stands in the value itself, and only more than one take memory:
/// most jobs use one buffer and have one packet.
#[derive(Drop)]
pub struct ShortList<T> {
    alloc: Global,
    items: Items<T>,
}

impl<T> Model for ShortList<T> {
    ghost use Rattle.std.specs.Prelude.{List};
    ghost use Rattle.drm_job.specs.Items.{items_of};

    ghost Value = { List T };

    ghost view = { λ list. items_of list.items };
}

impl<T> ShortList<T> {
    /// Makes an empty list, which takes no memory yet.
    pub fn new(alloc: Global) -> ShortList<T>
        ensures { result ≡ [] }
    {
        ShortList {
            alloc,
            items: Items::Empty,
        }
    }

    /// Makes the list of these items, in the memory that they have.
    pub fn from_vec(items: Vec<T>) -> ShortList<T>
        ensures { result ≡ items.items }
    {
        ShortList {
            alloc: *items.allocator(),
            items: Items::Many(items),
        }
    }

    /// Makes an empty list with room for so many items. It takes memory only for more than one.
    pub fn with_capacity(alloc: Global, capacity: usize) -> Result<ShortList<T>, AllocError>
        ensures { IfOk result (λ list. list ≡ []) }
    {
        if capacity < 2 {
            return Ok(ShortList::new(alloc));
        }
        let items = Vec::with_capacity(alloc, capacity)?;
        Ok(ShortList::from_vec(items))
    }

    /// Lends the items.
    #[inline]
    pub fn as_slice(&self) -> &[T]
        ensures { result.now ≡ self.now }
    {
        match &self.items {
            Items::Empty => &[],
            Items::One(item) => item,
            Items::Many(items) => items,
        }
    }

    /// Returns how many items there are.
    #[inline]
    pub fn len(&self) -> usize
        ensures { result ≡ length self.now }
    {
        self.as_slice().len()
    }

    /// Returns whether there is no item.
    #[inline]
    pub fn is_empty(&self) -> bool
        ensures { result ≡ is_nil self.now }
    {
        self.as_slice().is_empty()
    }
}

/// The first two items of a list, with room for more.
fn pair<T: Copy>(alloc: Global, first: T, second: T) -> Result<Vec<T>, AllocError>
    ensures { IfOk result (λ items. items.items ≡ first ∷ second ∷ []) }
{
    let mut items = Vec::with_capacity(alloc, FEW)?;
    items.push_reserved(first);
    items.push_reserved(second);
    Ok(items)
}

impl<T: Copy> ShortList<T> {
    /// Makes the list of these items.
    pub fn from_slice(alloc: Global, items: &[T]) -> Result<ShortList<T>, AllocError>
        ensures { IfOk result (λ list. list ≡ items.now) }
    {
        if let [item] = items {
            return Ok(ShortList {
                alloc,
                items: Items::One([*item]),
            });
        }
        Ok(ShortList::from_vec(Vec::from_slice(alloc, items)?))
    }

    /// Adds an item at the end. A refusal of memory leaves the list as it was.
    pub fn push(&mut self, item: T) -> Result<(), AllocError>
        ensures ok { OnOk result (self.new ≡ self.old ++ item ∷ []) }
        ensures err { OnErr result (self.new ≡ self.old) }
    {
        match &mut self.items {
            Items::Empty => self.items = Items::One([item]),
            Items::One(first) => {
                let items = pair(self.alloc, first[0], item)?;
                self.items = Items::Many(items);
            }
            Items::Many(items) => items.push(item)?,
        }
        Ok(())
    }
}
