// The one loading step of a file: its lines are read to rows, the rows checked, and the index of their blocks made, all once. Others call `load`, and
// `load_desk` for the second way of reading. Rows that are lent are loaded by `check`.
#![tactic(auto)]

ghost use Rattle.std.specs.Prelude.{◌≡◌, ◌*◌, ◌≤◌, ◌<◌, length, replicate};
ghost use Rattle.model.specs.Limits.{row_size, max_rows, desk_rows};
ghost use Rattle.model.specs.Verdicts.{verdict, read_file, by_line, in_lines, numbers_of, file_verdict};
ghost use Rattle.model.specs.Desk.{with_desk, desk_verdict, by_own_line, in_own_lines, desk_file_verdict};
ghost use Rattle.verdicts.specs.Index.{index_size};
ghost use Rattle.codec.specs.Parsing.{Parses};
ghost use Rattle.desk.specs.Own.{own_numbers};
ghost use Rattle.loading.specs.Loads.{Loads, BehindTable};

use blocks::INDEX;
use model::limits::{DESK_ROWS, DESK_SIZE, MAX_ROWS, ROW_SIZE};
use model::{Reason, Refusal};

// The rows of the built-in table, in 32 bits.
const DESK_ROWS_32: u32 = DESK_ROWS as u32;

// The refusal of a row, by its line in the file.
// Kept: apart from `by_own_line`, since one with the number of rows ahead is no plainer: `map_err` takes each by its name, and each has a definition of its own,
// which asks for a number below 5, as both do.
fn by_line(refusal: Refusal) -> Refusal
    requires { refusal.place ≤ max_rows }
    ensures { result ≡ by_line refusal }
{
    if refusal.number() < 5 {
        return refusal;
    }
    Refusal {
        reason: refusal.reason,
        place: refusal.place + 1,
    }
}

// The refusal of a row of all, by its line in a file whose rows stand behind the built-in table.
fn by_own_line(refusal: Refusal) -> Refusal
    requires { (refusal.place ≤ max_rows) × (5 ≤ refusal.number → desk_rows < refusal.place) }
    ensures { result ≡ by_own_line refusal }
{
    if refusal.number() < 5 {
        return refusal;
    }
    Refusal {
        reason: refusal.reason,
        place: refusal.place + 1 - DESK_ROWS_32,
    }
}

// The rows of a file, checked.
fn load_rows(numbers: &[u32], table: &mut [u32; INDEX]) -> Result<usize, Refusal>
    requires { table.old ≡ replicate index_size 0 }
    ensures { Loads (in_lines (verdict numbers.now)) numbers.now result numbers.now table.new }
{
    verdicts::check(numbers, table).map_err(by_line)?;
    Ok(numbers.len())
}

// The rows of a file behind those of the built-in table, checked with it.
fn load_desk_rows(numbers: &[u32], table: &mut [u32; INDEX]) -> Result<usize, Refusal>
    requires { BehindTable numbers.now × (table.old ≡ replicate index_size 0) }
    ensures { Loads (in_own_lines (desk_verdict (own_numbers numbers.now))) numbers.now result numbers.now table.new }
{
    let opens = desk::opens_first(numbers);
    if !opens {
        return Err(Refusal::new(Reason::CannotFollow, 2));
    }
    verdicts::check(numbers, table).map_err(by_own_line)?;
    Ok(numbers.len())
}

// Loads a file: its rows go to the beginning of the lent numbers, and their index to an empty table. What a refused file leaves in the two is left open.
pub fn load(file: &[u8], numbers: &mut [u32], table: &mut [u32; INDEX]) -> Result<usize, Refusal>
    requires { (max_rows * row_size ≤ length numbers.old) × (table.old ≡ replicate index_size 0) }
    ensures { Loads (file_verdict file.now) (numbers_of (read_file file.now)) result numbers.new table.new }
{
    let many = codec::parse(file, numbers)?;
    if MAX_ROWS < many {
        return Err(Refusal::new(Reason::BadRowCount, 0));
    }
    let end = many * ROW_SIZE;
    load_rows(&numbers[0..end], table)
}

// A file's own numbers, read to where they belong: behind the place of the built-in table.
fn parse_own(file: &[u8], numbers: &mut [u32]) -> Result<usize, Refusal>
    requires { desk_rows * row_size ≤ length numbers.old }
    ensures { Parses (read_file file.now) result (own_numbers numbers.old) (own_numbers numbers.new) }
{
    codec::parse(file, &mut numbers[DESK_SIZE..])
}

// Loads a file the second way: the rows that come with the desk before its own.
pub fn load_desk(
    file: &[u8],
    numbers: &mut [u32],
    table: &mut [u32; INDEX],
) -> Result<usize, Refusal>
    requires { (max_rows * row_size ≤ length numbers.old) × (table.old ≡ replicate index_size 0) }
    ensures { Loads (desk_file_verdict file.now) (with_desk (numbers_of (read_file file.now))) result numbers.new table.new }
{
    let many = parse_own(file, numbers)?;
    let fits = desk::fits(many);
    if !fits {
        return Err(Refusal::new(Reason::BadRowCount, 0));
    }
    desk::put_before(numbers);
    let end = (DESK_ROWS + many) * ROW_SIZE;
    load_desk_rows(&numbers[0..end], table)
}
