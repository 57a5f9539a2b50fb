// Numbers put to the beginning of a list: `copy` any, `set_row` those of a row.
#![tactic(auto)]

ghost use Rattle.std.specs.Prelude.{◌≡◌, ◌≤◌, length};
ghost use Rattle.std.proofs.lemmas.List.Edits.{sets};
ghost use Rattle.model.specs.Limits.{row_size};
ghost use Rattle.model.specs.Lists.{overwrite};

use model::limits::ROW_SIZE;

// The numbers of one list written to the beginning of another.
pub fn copy(from: &[u32], to: &mut [u32])
    requires { length from.now ≤ length to.old }
    ensures { to.new ≡ overwrite from.now to.old }
{
    to[..from.len()].copy_from_slice(from);
}

// A row's numbers written to the beginning of another list; the answer is how many they are.
pub fn set_row(row: &[u32], numbers: &mut [u32]) -> usize
    requires { (length row.now ≡ row_size) × (row_size ≤ length numbers.old) }
    ensures { (result ≡ row_size) × (numbers.new ≡ sets numbers.old 0 row.now) }
{
    numbers[..ROW_SIZE].copy_from_slice(row);
    ROW_SIZE
}
