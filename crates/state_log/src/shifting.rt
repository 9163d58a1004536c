// A slice of which the first elements go.
ghost use Rattle.std.specs.Prelude.{◌≡◌, ◌++◌, min, length, drop, replicate};

// The k first elements go: the others move to the front, and z stands in the places that they leave.
pub(crate) fn shift_out<T: Copy>(xs: &mut [T], k: usize, z: T)
    requires cloned { T.is_infallible z }
    requires same { (y : T) → T.is_clone z y → y ≡ z }
    ensures { xs.new ≡ drop k xs.old ++ replicate (min k (length xs.old)) z }
{
    let gone = k.min(xs.len());
    let kept = xs.len() - gone;
    xs.copy_within(gone.., 0);
    xs[kept..].fill(z);
}
