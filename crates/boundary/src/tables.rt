// What stands as numbers in lent memory, so many to a value: how a value is written and read, and how a
// table is, value by value.
ghost use Rattle.std.specs.Prelude.{◌≡◌, Bool, cond, List, ◌+◌, ◌*◌, ◌≤◌, length, map, flat_map, ℤ, Some, None};
ghost use Rattle.std.proofs.lemmas.List.Edits.{sets};
ghost use Rattle.std.specs.List.{list_all, All};

// A value that stands as W numbers.
pub trait Numbered<E, const W: usize>: Copy {
    ghost numbers: { Self → List E };

    // what a value of the type is known to keep to
    ghost keeps: { Self → Type 0 };

    fn numbers(self) -> [E; W]
        ensures numbers { result ≡ numbers self }
        ensures keeps { keeps self };
}

// A value that W numbers of a lent book may say.
pub trait Readable<const W: usize>: Copy {
    ghost reads: { List ℤ → Bool };

    ghost said: { List ℤ → Self };

    fn read(numbers: &[i64; W]) -> Option<Self>
        ensures { result ≡ cond (reads numbers.now) (Some (said numbers.now)) None };
}

// The numbers of each value of a table, one after the other from a place on; the rest stays.
pub fn write_table<E: Copy, T: Numbered<E, W>, const W: usize>(
    numbers: &mut [E],
    at: usize,
    table: &[T],
)
    requires { at + length table.now * W ≤ length numbers.old }
    ensures written { numbers.new ≡ sets numbers.old at (flat_map T.numbers table.now) }
    ensures keeps { All T.keeps table.now }
{
    for (i, entry) in table.iter().enumerate() {
        let from = at + i * W;
        numbers[from..from + W].copy_from_slice(&entry.numbers());
    }
}

// The table that numbers say, or none where a value's numbers say none; `unread` stands in a place
// until it is read.
pub fn read_table<T: Readable<W>, const W: usize, const N: usize>(
    numbers: &[[i64; W]; N],
    unread: T,
) -> Option<[T; N]>
    ensures { result ≡ cond (list_all T.reads numbers.now) (Some (map T.said numbers.now)) None }
{
    let mut table = [unread; N];
    for i in 0..N {
        table[i] = T::read(&numbers[i])?;
    }
    Some(table)
}
