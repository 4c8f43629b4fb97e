//! A vector that contracts see as a list. The public types of other crates use it, under an alias, for their fields.
ghost use Rattle.std.specs.Prelude.{◌≡◌, ◌==◌, ◌∷◌, ◌++◌, [], length, OnOk, OnErr};
ghost use Rattle.byteorder.specs.Endian.{little_bytes};
ghost use Rattle.eh_word.specs.Bytes.{zeros};

use crate::bytes::push_zeros;
use std::alloc::{AllocError, Global};
use std::marker::Model;

/// Elements in order. Contracts see a list.
#[derive(Debug, Drop)]
pub struct Seq<T> {
    items: Vec<T>,
}

impl<T> Model for Seq<T> {
    ghost use Rattle.std.specs.Prelude.{List};

    ghost Value = { List T };

    ghost view = { λ s. s.items.items };
}

impl<T> Seq<T> {
    /// An empty list, without allocation.
    pub fn new(alloc: Global) -> Seq<T>
        ensures { result ≡ [] }
    {
        Seq {
            items: Vec::new(alloc),
        }
    }

    /// The elements of a vector, without copying.
    pub fn of_vec(items: Vec<T>) -> Seq<T>
        ensures { result ≡ items.items }
    {
        Seq { items }
    }

    /// The elements as a vector.
    pub fn into_vec(self) -> Vec<T>
        ensures { result.items ≡ self }
    {
        self.items
    }

    /// The elements in order.
    pub fn as_slice(&self) -> &[T]
        ensures { result.now ≡ self.now }
    {
        self.items.as_slice()
    }

    /// The number of elements.
    pub fn len(&self) -> usize
        ensures { result ≡ length self.now }
    {
        self.items.len()
    }

    /// Whether there are no elements.
    pub fn is_empty(&self) -> bool
        ensures { result ≡ (length self.now == 0) }
    {
        self.items.is_empty()
    }
}

impl<T: Drop> Seq<T> {
    /// Appends an element. If memory runs out, nothing is appended.
    pub fn push(&mut self, item: T) -> Result<(), AllocError>
        ensures ok { OnOk result (self.new ≡ self.old ++ item ∷ []) }
        ensures err { OnErr result (self.new ≡ self.old) }
    {
        self.items.push(item)?;
        Ok(())
    }

    /// Appends the elements of another list.
    pub fn append(&mut self, more: Seq<T>) -> Result<(), AllocError>
        ensures { OnOk result (self.new ≡ self.old ++ more) }
    {
        for item in more.items {
            self.items.push(item)?;
        }
        Ok(())
    }
}

impl Seq<u8> {
    /// Appends bytes. If memory runs out, nothing is appended.
    pub fn extend_from_slice(&mut self, bytes: &[u8]) -> Result<(), AllocError>
        ensures ok { OnOk result (self.new ≡ self.old ++ bytes.now) }
        ensures err { OnErr result (self.new ≡ self.old) }
    {
        self.items.extend_from_slice(bytes)
    }

    /// Appends a halfword, lowest byte first. If memory runs out, nothing is appended.
    pub fn push_half(&mut self, half: u16) -> Result<(), AllocError>
        ensures ok { OnOk result (self.new ≡ self.old ++ little_bytes 2 half) }
        ensures err { OnErr result (self.new ≡ self.old) }
    {
        self.items.extend_from_slice(&half.to_le_bytes())
    }

    /// Appends a word, lowest byte first. If memory runs out, nothing is appended.
    pub fn push_word(&mut self, word: u32) -> Result<(), AllocError>
        ensures ok { OnOk result (self.new ≡ self.old ++ little_bytes 4 word) }
        ensures err { OnErr result (self.new ≡ self.old) }
    {
        self.items.extend_from_slice(&word.to_le_bytes())
    }

    /// Appends `count` zero bytes. If memory runs out, nothing is appended.
    pub fn push_zeros(&mut self, count: usize) -> Result<(), AllocError>
        ensures ok { OnOk result (self.new ≡ self.old ++ zeros count) }
        ensures err { OnErr result (self.new ≡ self.old) }
    {
        push_zeros(&mut self.items, count)
    }
}
