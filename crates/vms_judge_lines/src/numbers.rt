use anyhow::{Context, Result, bail};
use std::alloc::Global;
use std::num::ParseIntError;
use std::str::{FromStr, SplitWhitespace};
use vms_base::Row;

/// The numbers of a line that haven't been read yet, with blanks between them; at first its table stands before them.
#[derive(Drop)]
pub(crate) struct Numbers<'a> {
    words: SplitWhitespace<'a>,
}

/// What a line can give by one number or several.
pub(crate) trait FromNumbers: Sized {
    fn from_numbers(numbers: &mut Numbers<'_>) -> Result<Self>;
}

impl<'a> Numbers<'a> {
    pub(crate) fn of_line(line: &'a str) -> Numbers<'a> {
        Numbers {
            words: line.split_whitespace(),
        }
    }

    /// The name of the table, with which the line begins.
    pub(crate) fn table(&mut self) -> Option<&'a str> {
        self.words.next()
    }

    /// What the next numbers give.
    pub(crate) fn read<T: FromNumbers>(&mut self) -> Result<T> {
        T::from_numbers(self)
    }

    /// A list, with its length before it.
    pub(crate) fn read_list<T: FromNumbers + Drop>(&mut self, alloc: Global) -> Result<Vec<T>> {
        let mut items = Vec::new(alloc);
        for _ in 0..self.read::<u32>()? {
            items.push(self.read::<T>()?)?;
        }
        Ok(items)
    }

    pub(crate) fn read_row<T: FromNumbers + Drop>(&mut self, alloc: Global) -> Result<Row<T>> {
        Ok(Row::make(self.read_list(alloc)?))
    }

    /// Nothing may be left.
    pub(crate) fn end(&mut self) -> Result<()> {
        match self.words.next() {
            None => Ok(()),
            Some(word) => bail!("{word:?} stands past the end of the events"),
        }
    }

    fn parse<N: FromStr<Err = ParseIntError>>(&mut self) -> Result<N> {
        let Some(word) = self.words.next() else {
            bail!("the line has too few numbers");
        };
        word.parse::<N>()
            .context(format_args!("{word:?} is no number that fits here"))
    }
}

impl FromNumbers for u32 {
    fn from_numbers(numbers: &mut Numbers<'_>) -> Result<u32> {
        numbers.parse::<u32>()
    }
}

impl FromNumbers for u64 {
    fn from_numbers(numbers: &mut Numbers<'_>) -> Result<u64> {
        numbers.parse::<u64>()
    }
}

impl FromNumbers for i64 {
    fn from_numbers(numbers: &mut Numbers<'_>) -> Result<i64> {
        numbers.parse::<i64>()
    }
}

/// None is -1.
impl FromNumbers for Option<u32> {
    fn from_numbers(numbers: &mut Numbers<'_>) -> Result<Option<u32>> {
        let number = numbers.parse::<i64>()?;
        if number == -1 {
            return Ok(None);
        }
        let number = u32::try_from(number).context(format_args!(
            "{number} is no number that fits here"
        ))?;
        Ok(Some(number))
    }
}
