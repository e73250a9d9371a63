// Rows that are made where they are read, and kept as long as the windows that follow read them.
ghost use Rattle.std.specs.Prelude.{◌≡◌, ℕ, ◌*◌, ◌<◌, List, length, take, drop, Float};
ghost use Rattle.resample.specs.Tables.{KeptRows};
ghost use Rattle.resample.specs.Makes.{RowLaws};

// What makes the rows: how many values each has, and which they are.
pub trait MakesRows {
    ghost wide: { Self → ℕ };

    ghost made: { Self → ℕ → List Float };

    ghost can_make: { Self → ℕ → Type 0 };

    // what making a row leaves as it was
    ghost same: { Self → Self → Type 0 };

    fn width(&self) -> usize
        ensures { result ≡ wide self.now };

    fn make(&mut self, k: usize, out: &mut [f32])
        requires { can_make self.old k × (length out.old ≡ wide self.old) }
        ensures same { same self.old self.new }
        ensures row { out.new ≡ made self.old k };

    ghost laws: { RowLaws wide made same };
}

// Rows in SLOTS places of STRIDE values each, row k in place k mod SLOTS: `held` has k + 1 where row k stands. The fields
// are open, as a constructor would move the maker's room and the rows, some 200,000 bytes.
#[derive(Drop)]
pub struct Kept<M: MakesRows, const STRIDE: usize, const SLOTS: usize, const ROOM: usize> {
    pub maker: M,
    pub rows: [f32; ROOM],
    pub held: [u16; SLOTS],
    ghost some: { 0 < SLOTS },
    ghost kept: { KeptRows (M.made maker) (M.wide maker) STRIDE SLOTS held rows },
}

impl<M: MakesRows, const STRIDE: usize, const SLOTS: usize, const ROOM: usize> Kept<
    M,
    STRIDE,
    SLOTS,
    ROOM,
> {
    // Makes row k, unless it is kept, and answers its place.
    pub fn keep(&mut self, k: usize) -> usize
        requires { M.can_make self.old.maker k × (k < 65535) }
        ensures same { M.same self.old.maker self.new.maker }
        ensures place { result < SLOTS }
        ensures row { take (M.wide self.old.maker) (drop (result * STRIDE) self.new.rows) ≡ M.made self.old.maker k }
    {
        let slot = k % SLOTS;
        if self.held[slot] == (k + 1) as u16 {
            return slot;
        }
        let a = slot * STRIDE;
        let e = a + self.maker.width();
        let rows = &mut self.rows[..];
        self.maker.make(k, &mut rows[a..e]);
        self.held[slot] = (k + 1) as u16;
        slot
    }

    // The row that stands in a place.
    pub fn row(&self, slot: usize) -> &[f32]
        requires { slot < SLOTS }
        ensures { result.now ≡ take (M.wide self.now.maker) (drop (slot * STRIDE) self.now.rows) }
    {
        let a = slot * STRIDE;
        let e = a + self.maker.width();
        let rows = &self.rows[..];
        &rows[a..e]
    }
}
