//! A row as a heap: none of its entries is ahead of its parent, and the parent of the entry at
//! place `k` stands at `(k - 1) / 2`.
ghost use Rattle.std.specs.Prelude.{◌≡◌, ◌/◌, ◌<◌, not, ◌||◌, false, is_ok, if◌then◌else◌, length, slice_index_or, slice_set};
ghost use Rattle.std.specs.List.{filter, reduce};
ghost use Rattle.line.specs.Held.{with_entry};
ghost use Rattle.line.specs.Rows.{held, room, room_answer};
ghost use Rattle.heap_row.specs.Heap.{Heap, Rising, Sinking, Lowest, Found, sorted, earlier};

use line::entry::Entry;
use line::lines::LineFault;
use line::row::Row;

/// Writes `mover` at `at`, or as far above it as it belongs.
// By hand, as std's heap works on a `Vec` of its own and not on a row that is lent.
fn sift_up<T: Entry>(row: &mut Row<T>, at: usize, mover: T)
    requires { at < length (held row.old) }
    ensures heap { Rising T.Entry.ahead (slice_set (held row.old) at mover) at → Heap T.Entry.ahead (held row.new) }
    ensures sorted { sorted T.Entry.ahead (held row.new) ≡ sorted T.Entry.ahead (slice_set (held row.old) at mover) }
    ensures room { room row.new ≡ room row.old }
{
    let mut i = at;
    while i > 0 {
        let up = (i - 1) / 2;
        let above = row.held()[up];
        if !mover.is_ahead(&above) {
            break;
        }
        row.set(i, above);
        i = up;
    }
    row.set(i, mover);
}

/// The place of the child of `i` that goes first.
fn lowest<T: Entry>(heap: &[T], i: usize) -> usize
    requires { i < length heap.now / 2 }
    ensures { Lowest T.Entry.ahead heap.now i result }
{
    let left = 2 * i + 1;
    let right = left + 1;
    if right < heap.len() && heap[right].is_ahead(&heap[left]) {
        right
    } else {
        left
    }
}

/// Writes `mover` at `at`, or as far below it as it belongs.
fn sift_down<T: Entry>(row: &mut Row<T>, at: usize, mover: T)
    requires { at < length (held row.old) }
    ensures heap { Sinking T.Entry.ahead (slice_set (held row.old) at mover) at → Heap T.Entry.ahead (held row.new) }
    ensures sorted { sorted T.Entry.ahead (held row.new) ≡ sorted T.Entry.ahead (slice_set (held row.old) at mover) }
    ensures room { room row.new ≡ room row.old }
{
    let mut i = at;
    while i < row.held().len() / 2 {
        let low = lowest(row.held(), i);
        let below = row.held()[low];
        if !below.is_ahead(&mover) {
            break;
        }
        row.set(i, below);
        i = low;
    }
    row.set(i, mover);
}

/// Adds `entry`. Refused if the row is full.
pub(crate) fn push<T: Entry>(row: &mut Row<T>, entry: T) -> Result<(), LineFault>
    ensures answer { result ≡ room_answer (room row.old) (length (held row.old)) }
    ensures heap { Heap T.Entry.ahead (held row.old) → Heap T.Entry.ahead (held row.new) }
    ensures sorted { sorted T.Entry.ahead (held row.new) ≡ (if is_ok result then with_entry T.Entry.ahead entry (sorted T.Entry.ahead (held row.old)) else sorted T.Entry.ahead (held row.old)) }
    ensures room { room row.new ≡ room row.old }
    ensures kept { is_ok result ≡ false → row.new ≡ row.old }
{
    let end = row.held().len();
    row.insert(end, entry)?;
    sift_up(row, end, entry);
    Ok(())
}

/// Takes the entry at `at` out.
pub(crate) fn remove<T: Entry>(row: &mut Row<T>, at: usize)
    requires { at < length (held row.old) }
    ensures heap { Heap T.Entry.ahead (held row.old) → Heap T.Entry.ahead (held row.new) }
    ensures less { (d : T) → with_entry T.Entry.ahead (slice_index_or (held row.old) at d) (sorted T.Entry.ahead (held row.new)) ≡ sorted T.Entry.ahead (held row.old) }
    ensures room { room row.new ≡ room row.old }
{
    let end = row.held().len() - 1;
    let last = row.held()[end];
    row.remove(end);
    if at == end {
        return;
    }
    if at > 0 && last.is_ahead(&row.held()[(at - 1) / 2]) {
        sift_up(row, at, last);
    } else {
        sift_down(row, at, last);
    }
}

/// Where `sought` stands.
pub(crate) fn find<T: Entry>(held: &[T], sought: &T) -> Option<usize>
    ensures { Found T.Entry.ahead sought.now held.now result }
{
    held.iter()
        .position(|entry| !entry.is_ahead(sought) && !sought.is_ahead(entry))
}

/// The first of the entries behind `after`.
pub(crate) fn first_behind<T: Entry>(held: &[T], after: &T) -> Option<T>
    ensures { result ≡ reduce (earlier T.Entry.ahead) (filter (T.Entry.ahead after.now) held.now) }
{
    held.iter()
        .copied()
        .filter(|entry| after.is_ahead(entry))
        .reduce(|first, entry| if entry.is_ahead(&first) { entry } else { first })
}
