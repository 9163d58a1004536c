// Little-endian numbers put into bytes.
ghost use Rattle.std.specs.Prelude.{◌≡◌, cond, ◌++◌, ◌+◌, ◌≤◌, leb, length, take, drop};
ghost use Rattle.laws.specs.Bytes.{le_bytes};

// The n bytes that start at byte k become the lowest n of x, the lowest first.
fn put_number(bytes: &mut [u8], k: usize, n: usize, x: u64)
    requires { k + n ≤ length bytes.old }
    ensures { bytes.new ≡ take k bytes.old ++ (le_bytes n x ++ drop (k + n) bytes.old) }
{
    let mut rest = x;
    for byte in bytes[k..k + n].iter_mut() {
        *byte = (rest % 256) as u8;
        rest /= 256;
    }
}

// The n bytes that start at byte k become the lowest n of x, the lowest first; where they are not all there, nothing changes.
pub fn put_field(bytes: &mut [u8], k: usize, n: usize, x: u64)
    ensures { bytes.new ≡ cond (leb (k + n) (length bytes.old)) (take k bytes.old ++ (le_bytes n x ++ drop (k + n) bytes.old)) bytes.old }
{
    if bytes.len() < n {
        return;
    }
    if bytes.len() - n < k {
        return;
    }
    put_number(bytes, k, n, x);
}
