//! Lists.
ghost use Rattle.std.specs.Prelude.{◌≡◌, ◌≤◌, ◌<◌, ◌+◌, ◌↔◌, [], ◌∷◌, ◌++◌, length};
ghost use Rattle.std.specs.Prelude.{Some, take, drop, slice_get, slice_set, IsTrue, OnOk, OnErr, IfOk};

use std::alloc::{AllocError, Global};
use std::marker::Model;
use std::ops::Index;

/// A list, which contracts see as the list of its items.
#[derive(Drop)]
pub struct List<T> {
    vec: Vec<T>,
}

impl<T> Model for List<T> {
    ghost use Rattle.std.specs.Prelude.{List};

    ghost Value = { List T };

    ghost view = { λ l. l.vec.items };
}

impl<T> List<T> {
    /// The empty list, whose items will take their memory from this allocator.
    pub fn new(alloc: Global) -> List<T>
        ensures { result ≡ [] }
    {
        List {
            vec: Vec::new(alloc),
        }
    }

    /// The list of a vector's items, in the vector's memory.
    pub fn from_vec(vec: Vec<T>) -> List<T>
        ensures { result ≡ vec.items }
    {
        List { vec }
    }

    /// The vector of the items, in the list's memory.
    pub fn into_vec(self) -> Vec<T>
        ensures { result.items ≡ self }
    {
        self.vec
    }

    /// How many items there are.
    pub fn len(&self) -> usize
        ensures { result ≡ length self.now }
    {
        self.vec.len()
    }

    /// Whether there is no item.
    pub fn is_empty(&self) -> bool
        ensures { IsTrue result ↔ (self.now ≡ []) }
    {
        self.vec.is_empty()
    }

    /// The items in their order.
    pub fn as_slice(&self) -> &[T]
        ensures { result.now ≡ self.now }
    {
        self.vec.as_slice()
    }
}

impl<T: Drop> List<T> {
    /// Puts an item at the end. A list that was refused memory is as it was.
    pub fn push(&mut self, item: T) -> Result<(), AllocError>
        ensures ok { OnOk result (self.new ≡ self.old ++ item ∷ []) }
        ensures err { OnErr result (self.new ≡ self.old) }
    {
        self.vec.push(item)?;
        Ok(())
    }

    /// Puts an item at place `at`; the items from there on move up by one. A list that was refused memory is
    /// as it was.
    pub fn insert(&mut self, at: usize, item: T) -> Result<(), AllocError>
        requires { at ≤ length self.old }
        ensures ok { OnOk result (self.new ≡ take at self.old ++ item ∷ drop at self.old) }
        ensures err { OnErr result (self.new ≡ self.old) }
    {
        self.vec.insert(at, item)?;
        Ok(())
    }

    /// Takes out the item at place `at`; the items behind it move down by one.
    pub fn remove(&mut self, at: usize) -> T
        requires { at < length self.old }
        ensures item { slice_get self.old at ≡ Some result }
        ensures rest { self.new ≡ take at self.old ++ drop (at + 1) self.old }
    {
        self.vec.remove(at)
    }

    /// Puts an item in place of the one at place `at`.
    pub fn set(&mut self, at: usize, item: T)
        requires { at < length self.old }
        ensures { self.new ≡ slice_set self.old at item }
    {
        self.vec[at] = item;
    }
}

impl<T: Copy> List<T> {
    /// An equal list of its own memory.
    pub fn try_clone(&self) -> Result<List<T>, AllocError>
        ensures { IfOk result (λ copy. copy ≡ self.now) }
    {
        Ok(List {
            vec: Vec::from_slice(*self.vec.allocator(), &self.vec)?,
        })
    }
}

impl<T> Index<usize> for List<T> {
    type Output = T;

    ghost can_index = { λ l i. i < length l };

    ghost index_gives = { λ l i item. slice_get l i ≡ Some item };

    fn index(&self, at: usize) -> &T
        requires { at < length self.now }
        ensures { slice_get self.now at ≡ Some result.now }
    {
        &self.vec[at]
    }
}

impl<T: PartialEq> PartialEq for List<T> {
    ghost use Rattle.std.specs.Cmp.Lexicographic.{pointwise, lists_per};

    ghost eq = { pointwise T.eq };

    ghost laws = { lists_per T.laws };

    fn eq(&self, other: &Self) -> bool {
        self.vec.as_slice() == other.vec.as_slice()
    }
}
