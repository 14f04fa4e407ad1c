//! Rows that are found by their texts.

ghost use Rattle.std.specs.Prelude.{◌≡◌, find, IfOk};
ghost use Rattle.std.specs.Option.{option_copied};
ghost use Rattle.std.specs.Str.{bytes_eq};

use crate::repeats::TextKeyed;
use cm_names::Memory;
use std::alloc::Global;
use std::collections::HashMap;
use std::marker::Model;

/// Rows that are found by their texts: of those with one text the first. Contracts see it as the
/// rows.
pub(crate) struct Firsts<'a, T: TextKeyed> {
    rows: &'a [T],
    firsts: HashMap<&'a str, &'a T>,
}

impl<'a, T: TextKeyed> Drop for Firsts<'a, T> {
    /// Called where the value goes: gives back the memory of its parts.
    fn drop(self) {
        let Firsts { rows: _, firsts: _ } = self;
    }
}

impl<'a, T: TextKeyed> Model for Firsts<'a, T> {
    ghost use Rattle.std.specs.Prelude.{List};
    ghost use Rattle.cm_env.specs.Firsts.{HasFirsts};

    ghost Value = { List T };

    ghost view = { λ a. a.rows.now };

    ghost invariant = { λ a. HasFirsts T.key a.rows.now a.firsts };
}

impl<'a, T: TextKeyed> Firsts<'a, T> {
    /// Lays out the rows. `Err` where memory runs out.
    pub(crate) fn new(alloc: Global, rows: &'a [T]) -> Result<Firsts<'a, T>, Memory>
        ensures { IfOk result (λ made. made ≡ rows.now) }
    {
        let mut firsts = HashMap::with_capacity(alloc, rows.len())?;
        let mut left = rows.len();
        while left > 0 {
            left -= 1;
            let row = &rows[left];
            firsts.insert(row.key(), row)?;
        }
        Ok(Firsts { rows, firsts })
    }

    /// The first row that has the text.
    pub(crate) fn get(&self, text: &'a str) -> Option<&'a T>
        ensures { option_copied result ≡ find (λ row. bytes_eq (T.key row) text.now) self.now }
    {
        match self.firsts.get(&text) {
            None => None,
            Some(row) => Some(*row),
        }
    }
}
