// A weighted row added to another, as both ways do it.
ghost use Rattle.std.specs.Prelude.{◌≡◌, length};
ghost use Rattle.seq.specs.Lists.{tab};
ghost use Rattle.resample.specs.Tables.{added_at};

// Adds w times the row to the sum, value by value.
pub fn add_row(sum: &mut [f32], row: &[f32], w: f32)
    requires { length sum.old ≡ length row.now }
    ensures { sum.new ≡ tab (added_at sum.old w row.now) (length sum.old) }
{
    for (x, value) in sum.iter_mut().enumerate() {
        *value += w * row[x];
    }
}
