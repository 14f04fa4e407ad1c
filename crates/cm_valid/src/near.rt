//! Rows that may clash, found by sorting.

ghost use Rattle.std.specs.Prelude.{◌≡◌, ℕ, ◌<◌, ◌≤◌, List, length, IfOk};
ghost use Rattle.cm_valid.specs.Near as spec;
ghost use Rattle.cm_valid.specs.Near.{ApartKeys, AreKeys, IsInOrder, KeysAreApart};

use crate::key::RowKey;
use cm_names::{Bytes, Memory};
use std::alloc::Global;

/// A row of a section, with the text by which it clashes with others.
///
/// Two rows clash only where one of their texts is the other, or begins with the other and goes
/// on with a zero.
pub(crate) trait Keyed {
    ghost use Rattle.std.specs.Prelude.{◌≡◌, ℕ, List, IfOk};

    // The text by which a row clashes with others.
    ghost key: { Self → List ℕ };

    /// The text by which the row clashes with others. `Err` where memory runs out.
    fn key(&self, alloc: Global) -> Result<Bytes, Memory>
        ensures { IfOk result (λ text. text ≡ key self.now) };
}

/// How many rows at the start have no two that may clash: none of them clashes with another.
pub(crate) fn apart<T: Keyed>(alloc: Global, rows: &[T]) -> Result<usize, Memory>
    ensures { IfOk result (λ count. KeysAreApart T.key rows.now count) }
{
    let mut keys = keys_of(alloc, rows)?;
    keys.sort()?;
    Ok(apart_keys(keys.as_slice()))
}

/// A key for each row, by which clashes are found. `Err` comes where memory runs out.
fn keys_of<T: Keyed>(alloc: Global, rows: &[T]) -> Result<Vec<RowKey>, Memory>
    ensures { IfOk result (λ keys. AreKeys T.key rows.now keys.items) }
{
    let mut keys = Vec::with_capacity(alloc, rows.len())?;
    for (row, item) in rows.iter().enumerate() {
        let text = item.key(alloc)?;
        keys.push(RowKey { text, row })?;
    }
    Ok(keys)
}

/// The least row whose key is near the key of an earlier row.
///
/// In this order all texts that a text covers stand right after it. Of two rows whose texts are
/// near, the later one bounds the answer, so only the earlier one needs to be kept in mind.
fn apart_keys(keys: &[RowKey]) -> usize
    requires { IsInOrder keys.now }
    ensures { ApartKeys keys.now result }
{
    let mut apart = usize::MAX;
    let mut outer = 0;
    for index in 1..keys.len() {
        let first = &keys[outer];
        let next = &keys[index];
        if covers(first.text.as_slice(), next.text.as_slice()) {
            apart = apart.min(first.row.max(next.row));
            if next.row < first.row {
                outer = index;
            }
        } else {
            outer = index;
        }
    }
    apart
}

/// Whether the second text is the first, or goes on after it with a zero.
fn covers(outer: &[u8], inner: &[u8]) -> bool
    ensures { result ≡ spec.covers outer.now inner.now }
{
    if !inner.starts_with(outer) {
        return false;
    }
    inner.len() == outer.len() || inner[outer.len()] == 0
}
