// Text in a lent buffer: pieces put one after another.
#![tactic(auto)]

ghost use Rattle.std.specs.Prelude.{◌+◌, ◌≤◌, length};
ghost use Rattle.text.specs.Pieces.{Put};
ghost use Rattle.text.specs.Decimal.{decimal, signed_decimal};

// A piece put at `at`. The answer is where it ends.
pub fn put(piece: &[u8], text: &mut [u8], at: usize) -> usize
    requires { at + length piece.now ≤ length text.old }
    ensures { Put at piece.now text.old text.new result }
{
    let end = at + piece.len();
    text[at..end].copy_from_slice(piece);
    end
}

// The decimal digits of a number put at `at`.
pub fn put_number(number: u64, text: &mut [u8], at: usize) -> usize
    requires { at + 20 ≤ length text.old }
    ensures put { Put at (decimal number) text.old text.new result }
    ensures upper_bound { result ≤ at + 20 }
{
    let mut digits = [0u8; 20];
    let count = io::decimal(number, &mut digits);
    put(&digits[..count], text, at)
}

// The decimal digits of a signed number put at `at`, after `-` where it is negative.
pub fn put_signed(number: i32, text: &mut [u8], at: usize) -> usize
    requires { at + 21 ≤ length text.old }
    ensures put { Put at (signed_decimal number) text.old text.new result }
    ensures upper_bound { result ≤ at + 21 }
{
    let mut end = at;
    if number < 0 {
        end = put(b"-", text, at);
    }
    put_number(u64::from(number.unsigned_abs()), text, end)
}
