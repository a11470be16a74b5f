//! Tables from spellings to what they mean.

ghost use Rattle.std.specs.Prelude.{◌≡◌, map, find, option_map};
ghost use Rattle.std.specs.Str.{bytes_eq, str_eq_ignore_ascii_case};
ghost use Rattle.lexing.specs.Tables.{beside, beside_in_any_case, row_of_bytes};

/// A spelling with its meaning.
pub type Row<T> = (&'static str, T);

/// The first row with these bytes.
fn row<'a, T>(table: &'a [Row<T>], bytes: &[u8]) -> Option<&'a Row<T>>
    ensures { option_map (λ row. row.now) result ≡ find (λ row. bytes_eq row.0.now bytes.now) table.now }
{
    table.iter().find(|row| row.0.as_bytes() == bytes)
}

/// The first row with these bytes, where small and capital letters count alike.
fn row_in_any_case<'a, T>(table: &'a [Row<T>], bytes: &[u8]) -> Option<&'a Row<T>>
    ensures { option_map (λ row. row.now) result ≡ find (λ row. str_eq_ignore_ascii_case row.0.now bytes.now) table.now }
{
    table
        .iter()
        .find(|row| row.0.as_bytes().eq_ignore_ascii_case(bytes))
}

/// What stands beside these bytes.
#[tactic(auto, using(crate::proofs::TableLemmas::beside_rows))]
pub fn beside<T: Copy>(table: &[Row<T>], bytes: &[u8]) -> Option<T>
    ensures { result ≡ beside bytes.now (map row_of_bytes table.now) }
{
    let found = row(table, bytes)?;
    Some(found.1)
}

/// What stands beside these bytes, where small and capital letters count alike.
#[tactic(auto, using(crate::proofs::TableLemmas::any_case_rows))]
pub fn beside_in_any_case<T: Copy>(table: &[Row<T>], bytes: &[u8]) -> Option<T>
    ensures { result ≡ beside_in_any_case bytes.now (map row_of_bytes table.now) }
{
    let found = row_in_any_case(table, bytes)?;
    Some(found.1)
}
