// Look-ups among rows in order.
ghost use Rattle.std.specs.Prelude.{◌≡◌, ◌==◌, ◌≤◌, length, nat_lt, slice_get, true, false};
ghost use Rattle.std.specs.List.Sorted.{IsPartitionPoint};
ghost use Rattle.std.specs.Option.{option_copied};
ghost use Rattle.swarm_objects.specs.Rows.{IsRising, row_at};

use swarm_objects::{Id, Keyed};

// How many rows have lesser keys.
fn lesser<T: Keyed>(rows: &[T], key: Id) -> usize
    requires { IsRising T.key_of rows.now }
    ensures bound { result ≤ length rows.now }
    ensures parted { IsPartitionPoint (λ row. nat_lt (T.key_of row) key ≡ true)
        (λ row. nat_lt (T.key_of row) key ≡ false) rows.now result }
{
    rows.partition_point(|row| row.key() < key)
}

// The row at the index.
fn row_at_index<T>(rows: &[T], at: usize) -> Option<&T>
    ensures { option_copied result ≡ slice_get rows.now at }
{
    rows.get(at)
}

fn has_key<T: Keyed>(row: &T, key: Id) -> bool
    ensures { result ≡ (T.key_of row.now == key) }
{
    row.key() == key
}

/// The row with this key, among rows that stand by rising key; it is found by halving.
pub fn find_row<T: Keyed>(rows: &[T], key: Id) -> Option<&T>
    requires { IsRising T.key_of rows.now }
    ensures { option_copied result ≡ row_at T.key_of key rows.now }
{
    match row_at_index(rows, lesser(rows, key)) {
        Some(row) => { if has_key(row, key) { Some(row) } else { None } }
        None => None,
    }
}
