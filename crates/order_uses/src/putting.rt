// A row is put among others, in place of the one of its rank.
ghost use Rattle.std.specs.Prelude.{◌≡◌, ◌≤◌, ◌+◌};
ghost use Rattle.rows.specs.Slots.{with_row};

use rows::{BlockRows, Ranked};

/// Puts a row, in place of the one of its rank if there is one. It takes no memory.
pub(crate) fn put_over<R: Ranked + Copy>(rows: &mut BlockRows<R>, row: R)
    requires { 1 ≤ rows.old.spare }
    ensures rows { rows.new.rows ≡ with_row R.rank rows.old.rows row }
    ensures spare { rows.new.spare + 1 ≡ rows.old.spare }
{
    // the rows rise
    let _count = rows.len();
    rows.remove(row.rank());
    rows.add(row);
}
