// The blocks that come with the desk. Reading the second way calls fits, put_before and opens_first.
#![tactic(auto)]

mod built_in;

ghost use Rattle.std.specs.Prelude.{◌≡◌, ◌+◌, ◌*◌, ◌≤◌, length};
ghost use Rattle.model.specs.Limits.{row_size, desk_rows};
ghost use Rattle.model.specs.Rows.{row_at};
ghost use Rattle.model.specs.Desk.{with_desk};
ghost use Rattle.desk.specs.Own.{own_rows_fit, opens_first, own_numbers};

use built_in::BUILT_IN;
use model::limits::{DESK_BLOCKS, DESK_ROWS, DESK_SIZE, MAX_ROWS};

// How many rows a file may have of its own.
const MAX_OWN_ROWS: usize = MAX_ROWS - DESK_ROWS;

// A file may have so many rows of its own.
pub fn fits(many: usize) -> bool
    ensures { result ≡ own_rows_fit many }
{
    1 <= many && many <= MAX_OWN_ROWS
}

// Puts the built-in table before the numbers that stand behind its place.
pub fn put_before(numbers: &mut [u32])
    requires { desk_rows * row_size ≤ length numbers.old }
    ensures { numbers.new ≡ with_desk (own_numbers numbers.old) }
{
    rows::copy(&BUILT_IN, numbers);
}

// The first row behind the built-in table opens the first block behind its blocks.
pub fn opens_first(numbers: &[u32]) -> bool
    requires { desk_rows * row_size + row_size ≤ length numbers.now }
    ensures { result ≡ opens_first (row_at numbers.now desk_rows) }
{
    numbers[DESK_SIZE + 1] == 0 && numbers[DESK_SIZE] == DESK_BLOCKS
}
