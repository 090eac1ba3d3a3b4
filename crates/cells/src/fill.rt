// One value into every cell of a lent slice: the library's `out.fill(value)`, public here, so its promise stays for those who call it.
ghost use Rattle.std.specs.Prelude.{◌≡◌, length, replicate};

pub fn fill(out: &mut [f64], value: f64)
    ensures { out.new ≡ replicate (length out.old) value }
{
    out.fill(value);
}
