// The lent buffer as the entries of consecutive orders: two cells to an entry, re before im, the lowest order first. Promised by the type: the
// number of cells is even, and at most 1024, as refusals 1 and 5 leave it. Who takes it may change the cells' values; Kept of
// specs/Entries.antt says that it is the same buffer afterwards.
ghost use Rattle.std.specs.Prelude.{◌≡◌, ◌+◌, ◌*◌, ◌/◌, ◌%◌, ◌≤◌, ◌<◌, length, set};

use complex::number::Complex;

#[derive(Drop)]
pub struct Entries<'a> {
    pub cells: &'a mut [f64],
    pub ghost even: { length cells.now % 2 ≡ 0 },
    pub ghost few: { length cells.now ≤ 1024 },
}

impl<'a> Entries<'a> {
    ghost use Rattle.power_series.specs.Entries.{orders, Kept};

    pub fn of(cells: &'a mut [f64]) -> Entries<'a>
        requires { (length cells.old % 2 ≡ 0) × (length cells.old ≤ 1024) }
        ensures same { result.cells.ghost_name ≡ cells.entry.ghost_name }
        ensures cells { result.cells.now ≡ cells.old }
    {
        Entries { cells }
    }

    // how many orders have an entry here
    pub fn len(&self) -> usize
        ensures { result ≡ orders self.now }
    {
        self.cells.len() / 2
    }

    // The entry of the order v + k into its two cells.
    pub fn put(&mut self, k: usize, entry: Complex)
        requires { k < orders self.old }
        ensures kept { Kept self.old self.new }
        ensures cells { self.new.cells.now ≡ set (set self.old.cells.now (k * 2 + 1) entry.im) (k * 2) entry.re }
    {
        self.cells[k * 2 + 1] = entry.im;
        self.cells[k * 2] = entry.re;
    }
}
