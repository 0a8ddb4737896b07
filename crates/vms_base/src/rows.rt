use crate::Memory;
use std::alloc::Global;
use std::marker::Model;

/// A list whose length stays, such as the global values by counter.
#[derive(Debug, Drop)]
pub struct Row<T> {
    items: Vec<T>,
}

impl<T> Model for Row<T> {
    ghost use Rattle.std.specs.Prelude.{List};

    ghost Value = { List T };

    ghost view = { λ row. row.items.items };
}

impl<T> Row<T> {
    ghost use Rattle.std.specs.Prelude.{◌≡◌, ◌<◌, ◌^◌, length};

    /// The row of these items.
    #[inline]
    pub fn make(items: Vec<T>) -> Row<T>
        ensures { result ≡ items.items }
    {
        Row { items }
    }

    #[inline]
    pub fn len(&self) -> usize
        ensures len { result ≡ length self.now }
        ensures bound { length self.now < 2 ^ 63 }
    {
        self.items.len()
    }

    #[inline]
    pub fn as_slice(&self) -> &[T]
        ensures { result.now ≡ self.now }
    {
        self.items.as_slice()
    }

    /// The items themselves.
    #[inline]
    pub fn into_items(self) -> Vec<T>
        ensures { result.items ≡ self }
    {
        let Row { items } = self;
        items
    }
}

impl<T: Copy> Row<T> {
    ghost use Rattle.std.specs.Prelude.{◌≡◌, ◌<◌, length, slice_index_or, slice_set, IfOk, replicate};

    /// A row of `len` copies of `value`.
    pub fn filled(alloc: Global, len: usize, value: T) -> Result<Row<T>, Memory>
        ensures { IfOk result (λ row. row ≡ replicate len value) }
    {
        let mut items = Vec::with_capacity(alloc, len)?;
        while items.len() < len {
            items.push(value)?;
        }
        Ok(Row { items })
    }

    /// A row of the same items.
    pub fn from_slice(alloc: Global, items: &[T]) -> Result<Row<T>, Memory>
        ensures { IfOk result (λ row. row ≡ items.now) }
    {
        Ok(Row {
            items: Vec::from_slice(alloc, items)?,
        })
    }

    #[inline]
    pub fn get(&self, index: usize) -> T
        requires { index < length self.now }
        ensures { (default : T) → slice_index_or self.now index default ≡ result }
    {
        self.items[index]
    }

    #[inline]
    pub fn set(&mut self, index: usize, value: T)
        requires { index < length self.old }
        ensures { self.new ≡ slice_set self.old index value }
    {
        self.items[index] = value;
    }
}
