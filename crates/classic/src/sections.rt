// Filling a table of an entry's sections, in a table that is lent.
//
// A table is filled from the last place on: so the compiler turns the 8-byte numbers of a big-endian file one by one, which
// is faster than by two.
ghost use Rattle.std.specs.Prelude.{◌≡◌, ◌<◌, ◌≤◌, ℕ, length};
ghost use Rattle.classic.specs.Bounds.{Fills};

// Puts a value into each of the first `count` places of a table of blanks.
pub(crate) fn fill<T: Copy, F: Fn(u64) -> T>(table: &mut [T], count: u64, value_at: F)
    requires room { (count ≤ 64) × (length table.old ≡ 64) }
    requires called { (i : ℕ) → i < count → F.pre value_at i }
    ensures { Fills count (F.post value_at) table.old table.new }
{
    for left in (0..count).rev() {
        table[left as usize] = value_at(left);
    }
}
