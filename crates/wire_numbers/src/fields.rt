// Little-endian numbers in bytes.
ghost use Rattle.std.specs.Prelude.{◌≡◌, cond, ◌&&◌, ◌+◌, ◌^◌, ◌<◌, ◌≤◌, leb, length};
ghost use Rattle.laws.specs.Bytes.{le_field};

// The number in the n bytes that start at byte k.
fn number_at(bytes: &[u8], k: usize, n: usize) -> u64
    requires { (k + n ≤ length bytes.now) × (n ≤ 8) }
    ensures { (result ≡ le_field k n bytes.now) × (result < 256 ^ n) }
{
    let mut x: u64 = 0;
    // By place: the highest byte is the last.
    for i in (0..n).rev() {
        x = 256 * x + u64::from(bytes[k + i]);
    }
    x
}

// The number in the n bytes that start at byte k; 0 where they are not all there, or are more than eight.
pub fn field_at(bytes: &[u8], k: usize, n: usize) -> u64
    ensures { (result ≡ cond (leb n 8 && leb (k + n) (length bytes.now)) (le_field k n bytes.now) 0) × (result < 256 ^ n) }
{
    if 8 < n {
        return 0;
    }
    if bytes.len() < n {
        return 0;
    }
    if bytes.len() - n < k {
        return 0;
    }
    number_at(bytes, k, n)
}
