// The blocks that come with the desk, made from their description: the rows of one plain run after the other, and the file of them.
#![tactic(auto)]

ghost use Rattle.std.specs.Prelude.{◌≡◌, [], ◌∷◌, ◌<◌, ◌≤◌, length};
ghost use Rattle.model.specs.Limits.{row_size, desk_blocks};
ghost use Rattle.model.specs.Rows.{file_text};
ghost use Rattle.model.specs.Desk.{plain_opening, plain_link, plain_run, built_in, built_in_numbers};
ghost use Rattle.plain_runs.specs.Putting.{RowsFit, PutsRows, own_links};

use model::limits::{DESK_BLOCKS, DESK_ROWS, DESK_SIZE};

// The bytes of the file of the blocks that come with the desk.
pub const DESK_BYTES: usize = 3902;

// What follows puts rows to the beginning of the numbers that are lent, and answers how many numbers they have.
// Kept: that k is a desk's block and that there is room, here and below: no plainer as types, since each function asks for the room of its own rows, and k is counted with.

// Puts the opening row of block k.
fn put_opening(k: u32, numbers: &mut [u32]) -> usize
    requires { (k < desk_blocks) × (row_size ≤ length numbers.old) }
    ensures { PutsRows (plain_opening k ∷ []) numbers.old result numbers.new }
{
    rows::set_row(&[k, 0, 2, k + 1, 0, 0, 0, 0, 0, 0, 0], numbers)
}

// Puts a link of block k, from cue a to cue b.
fn put_link(k: u32, a: u32, b: u32, numbers: &mut [u32]) -> usize
    requires { row_size ≤ length numbers.old }
    ensures { PutsRows (plain_link k a b ∷ []) numbers.old result numbers.new }
{
    rows::set_row(&[k, 1, 1, a, b, 0, 0, 0, 0, 0, 0], numbers)
}

// Puts the links of block k from each own cue to the next.
fn put_own_links(k: u32, numbers: &mut [u32]) -> usize
    requires { (k < desk_blocks) × RowsFit (own_links k 1 k) numbers.old }
    ensures { PutsRows (own_links k 1 k) numbers.old result numbers.new }
{
    let mut at = 0;
    for c in 1..k + 1 {
        at += put_link(k, c, c + 1, &mut numbers[at..]);
    }
    at
}

// Puts the rows of block k. The first join's link stands last, as links rise by the cue they start from.
fn put_run(k: u32, numbers: &mut [u32]) -> usize
    requires { (k < desk_blocks) × RowsFit (plain_run k) numbers.old }
    ensures { PutsRows (plain_run k) numbers.old result numbers.new }
{
    let i = put_opening(k, numbers);
    let j = i + put_own_links(k, &mut numbers[i..]);
    let l = j + put_link(k, k + 1, k + 3, &mut numbers[j..]);
    l + put_link(k, k + 2, 1, &mut numbers[l..])
}

// Puts the rows of all blocks, of which the numbers are then full.
fn put_runs(numbers: &mut [u32])
    requires { length numbers.old ≡ length built_in_numbers }
    ensures { numbers.new ≡ built_in_numbers }
{
    let mut at = 0;
    for k in 0..DESK_BLOCKS {
        at += put_run(k, &mut numbers[at..]);
    }
}

// The file of the blocks that come with the desk.
pub fn generate(out: &mut [u8; DESK_BYTES])
    ensures { out.new ≡ file_text built_in }
{
    let mut numbers = [0u32; DESK_SIZE];
    put_runs(&mut numbers);
    codec::emit(&numbers, DESK_ROWS, out);
}
