//! Rows of the table of reserves: an order's reserve stands in the row of the order.
ghost use Rattle.std.specs.Prelude.{◌≡◌};
ghost use Rattle.draws.specs.Rows.{reserve_at};

/// The reserve in a row, and 0 in none.
pub fn reserve_at(reserves: &[u32], row: Option<usize>) -> u32
    ensures { result ≡ reserve_at row reserves.now }
{
    row.and_then(|at| reserves.get(at).copied()).unwrap_or(0)
}
