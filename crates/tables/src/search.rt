//! Binary search in rows that are in the order of their keys.

ghost use Rattle.std.specs.Prelude.{◌≡◌, ℕ, ◌+◌, ◌^◌, ◌<◌, ◌≤◌, Bool, IfErr, OnOk, OnErr, length, filter, nat_le};
ghost use Rattle.std.specs.Fn.{FnReturnsAt};
ghost use Rattle.std.specs.declared.cmp.Ordering.{Ordering};
ghost use Rattle.tables.specs.Search.{AreAscending, IsPlace, row_of, put_row};
ghost use Rattle.tables.specs.declared.refusal.TableError.TheVariants.{Capacity};

use crate::refusal::TableError;
use arrayvec::ArrayVec;
use basics::steps::{Count, Uncounted};
use std::cmp::Ordering;

/// A row of a list that is in the order of keys of the type `K`.
pub(crate) trait Keyed<K> {
    ghost order: { Self → K → Ordering };

    /// Compares the row's key with a key.
    fn compare(&self, key: &K) -> Ordering
        ensures { result ≡ order self.now key.now };
}

/// Returns the index of the row of a key, or else the index at which it would be inserted. `keys` counts one for each
/// key that is compared: at most as many as the number of rows has binary digits.
///
/// # Errors
/// The index at which a row of the key would be inserted, where there is none.
pub(crate) fn search<K, R: Keyed<K>, C: Count>(
    rows: &[R],
    key: &K,
    keys: &mut C,
) -> Result<usize, usize>
    requires { AreAscending (λ row. R.order row key.now) rows.now }
    ensures place { IsPlace (λ row. R.order row key.now) rows.now result }
    ensures count { (k : ℕ) → length rows.now < 2 ^ k → C.count keys.new ≤ C.count keys.old + k }
{
    let mut low = 0;
    let mut high = rows.len();
    while low < high {
        let middle = low + (high - low) / 2;
        keys.tick();
        match rows[middle].compare(key) {
            Ordering::Less => low = middle + 1,
            Ordering::Equal => return Ok(middle),
            Ordering::Greater => high = middle,
        }
    }
    Err(low)
}

/// Returns the row of a key, if there is one. `keys` counts as in [`search`].
pub(crate) fn row_of<K, R: Keyed<K> + Copy, C: Count, const N: usize>(
    rows: &ArrayVec<R, N>,
    key: &K,
    keys: &mut C,
) -> Option<R>
    requires { AreAscending (λ row. R.order row key.now) rows.now.items }
    ensures row { result ≡ row_of (λ row. R.order row key.now) rows.now.items }
    ensures count { (k : ℕ) → N < 2 ^ k → C.count keys.new ≤ C.count keys.old + k }
{
    let rows = rows.as_slice();
    match search(rows, key, keys) {
        Ok(index) => Some(rows[index]),
        Err(_) => None,
    }
}

/// Returns whether there is room for a row of a key.
pub(crate) fn has_room<K, R: Keyed<K> + Copy, const N: usize>(
    rows: &ArrayVec<R, N>,
    key: &K,
) -> bool
    requires { AreAscending (λ row. R.order row key.now) rows.now.items }
    ensures { (row : R) → result ≡ nat_le (length (put_row (λ row. R.order row key.now) row rows.now.items)) N }
{
    match search(rows.as_slice(), key, &mut Uncounted) {
        Ok(_) => true,
        Err(_) => rows.len() < N,
    }
}

/// Puts a row at the place of its key, over the row of the key if there is one.
///
/// # Errors
/// `Capacity` where there would be more than `N` rows. Nothing is changed then.
pub(crate) fn insert<K, R: Keyed<K> + Copy, const N: usize>(
    rows: &mut ArrayVec<R, N>,
    key: &K,
    row: R,
) -> Result<(), TableError>
    requires { AreAscending (λ row. R.order row key.now) rows.old.items }
    ensures inserted { OnOk result (rows.new.items ≡ put_row (λ row. R.order row key.now) row rows.old.items) }
    ensures few { OnOk result (length rows.new.items ≤ N) }
    ensures why { IfErr result (λ e. e ≡ Capacity) }
    ensures full { OnErr result (N < length (put_row (λ row. R.order row key.now) row rows.old.items)) }
    ensures unchanged { OnErr result (rows.new.items ≡ rows.old.items) }
{
    match search(rows.as_slice(), key, &mut Uncounted) {
        Ok(index) => rows[index] = row,
        Err(index) => {
            if rows.is_full() {
                return Err(TableError::Capacity);
            }
            rows.insert(index, row);
        }
    }
    Ok(())
}

/// Returns the rows that pass a test, in their order.
pub(crate) fn filtered<R: Copy + Default, F: Fn(&R) -> bool, const N: usize>(
    rows: &ArrayVec<R, N>,
    test: F,
) -> ArrayVec<R, N>
    requires { F.IsAlwaysCallable test }
    ensures rows { (passes : R → Bool) → ((row : R) (is : Bool) → FnReturnsAt F.Fn test row is → is ≡ passes row)
        → result.items ≡ filter passes rows.now.items }
    ensures few { length result.items ≤ N }
{
    let mut left = ArrayVec::new();
    let _ = left.try_extend_from_slice(rows.as_slice());
    left.retain(|row| test(row));
    left
}
