// Digits in ASCII.
ghost use Rattle.std.specs.Prelude.{◌≡◌, ◌<◌};
ghost use Rattle.journal_text.specs.Text.{digit};

// What the digit ten, `a`, is counted from.
const BEFORE_A: u8 = b'a' - 10;

// The character of a digit below 16.
pub(crate) fn digit(d: u8) -> u8
    requires { d < 16 }
    ensures { result ≡ digit d }
{
    if d < 10 { b'0' + d } else { BEFORE_A + d }
}
