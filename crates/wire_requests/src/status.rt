// The status bytes that end a request.
ghost use Rattle.std.specs.Prelude.{◌≡◌, cond, ◌∷◌, [], eqb, length};

use wire_numbers::copying::copy_in;

// A writable part of four bytes becomes the status and three zeros; any other stays.
pub fn put_status(writable: &mut [u8], status: u8)
    ensures { writable.new ≡ cond (eqb (length writable.old) 4) (status ∷ 0 ∷ 0 ∷ 0 ∷ []) writable.old }
{
    if writable.len() == 4 {
        copy_in(writable, &[status, 0, 0, 0]);
    }
}
