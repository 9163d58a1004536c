// Bytes copied to the front of a buffer.
ghost use Rattle.std.specs.Prelude.{◌≡◌, ◌++◌, length, take, drop};

// The first bytes of out become those of bytes, as many as there is room for, and the rest stays.
pub fn copy_in(out: &mut [u8], bytes: &[u8])
    ensures { out.new ≡ take (length out.old) bytes.now ++ drop (length bytes.now) out.old }
{
    let n = bytes.len().min(out.len());
    out[..n].copy_from_slice(&bytes[..n]);
}
