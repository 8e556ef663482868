//! Rows of the table of orders. An order's reserve stands in the same row of the table of reserves.
ghost use Rattle.std.specs.Prelude.{◌≡◌};
ghost use Rattle.board.specs.Rows.{put_at};

use arrayvec::ArrayVec;

/// Writes a row anew, or lets it go.
pub fn put<T: Copy + Default, const N: usize>(
    rows: &mut ArrayVec<T, N>,
    row: Option<usize>,
    item: Option<T>,
)
    ensures { rows.new.items ≡ put_at row item rows.old.items }
{
    let Some(at) = row else {
        return;
    };
    match item {
        Some(item) => {
            if let Some(place) = rows.get_mut(at) {
                *place = item;
            }
        }
        None => {
            // A row that is not there needs no letting go.
            let _ = rows.pop_at(at);
        }
    }
}
