ghost use Rattle.std.specs.Prelude.{◌≡◌, ◌↔◌, Contains, IsPermutation, IsSortedByKey};

use fsm_base::Letter;

/// The rows of a table, sorted by their first component.
pub fn sorted_rows<K: Letter, V>(mut rows: Vec<(K, V)>) -> Vec<(K, V)>
    ensures permutation { IsPermutation rows.items result.items }
    ensures sorted { IsSortedByKey (λ row. row.0) K.cmp result.items }
{
    rows.sort_unstable_by_key(|row| row.0);
    rows
}

/// The rows that have a key as their first component, found by halving.
pub fn rows_at<K: Letter, V>(rows: &[(K, V)], key: K) -> &[(K, V)]
    requires { IsSortedByKey (λ row. row.0) K.cmp rows.now }
    ensures { (row : K × V) → Contains result.now row ↔ (Contains rows.now row × (row.0 ≡ key)) }
{
    let rest = &rows[rows.partition_point(|row| row.0.cmp(&key).is_lt())..];
    &rest[..rest.partition_point(|row| row.0.cmp(&key).is_le())]
}
