// Operations on signed 32-bit numbers: arithmetic wrapped modulo 2^32, shifts, counts and tests.
#![tactic(auto)]

ghost use Rattle.std.specs.Prelude.{◌≡◌, ◌^◌, ◌<◌, pos, ◌+ℤ◌, ◌-ℤ◌, neg_ℤ};
ghost use Rattle.std.specs.Int.Bits.{bit_and, bit_or, bit_xor};
ghost use Rattle.std.specs.Int.Signed.{lt_z};
ghost use Rattle.words.specs.Words.{pattern_of, number_of, wrap, floor_div, ones_of, is_zero};

// The 32-bit pattern of a number.
pub fn pattern(x: i32) -> u32
    ensures { result ≡ pattern_of x }
{
    x.cast_unsigned()
}

// The number of a 32-bit pattern.
pub fn number(p: u32) -> i32
    ensures { result ≡ number_of p }
{
    p.cast_signed()
}

// a + b, wrapped.
pub fn wrapping_add(a: i32, b: i32) -> i32
    ensures { result ≡ wrap (a +ℤ b) }
{
    a.wrapping_add(b)
}

// a - b, wrapped.
pub fn wrapping_sub(a: i32, b: i32) -> i32
    ensures { result ≡ wrap (a -ℤ b) }
{
    a.wrapping_sub(b)
}

// -a, wrapped.
pub fn wrapping_neg(a: i32) -> i32
    ensures { result ≡ wrap (neg_ℤ a) }
{
    a.wrapping_neg()
}

// a divided by 2^n, rounded down.
pub fn shift_right(a: i32, n: u32) -> i32
    requires { n < 32 }
    ensures { result ≡ floor_div a (2 ^ n) }
{
    a >> n
}

// The number of ones in the pattern of a.
pub fn count_ones(a: i32) -> i32
    ensures { result ≡ pos (ones_of (pattern_of a)) }
{
    pattern(a).count_ones() as i32
}

// The bitwise and.
pub fn bit_and(a: i32, b: i32) -> i32
    ensures { result ≡ number_of (bit_and (pattern_of a) (pattern_of b)) }
{
    a & b
}

// The bitwise or.
pub fn bit_or(a: i32, b: i32) -> i32
    ensures { result ≡ number_of (bit_or (pattern_of a) (pattern_of b)) }
{
    a | b
}

// The bitwise exclusive or.
pub fn bit_xor(a: i32, b: i32) -> i32
    ensures { result ≡ number_of (bit_xor (pattern_of a) (pattern_of b)) }
{
    a ^ b
}

// Whether a is below 0.
pub fn is_negative(a: i32) -> bool
    ensures { result ≡ lt_z a (pos 0) }
{
    a < 0
}

// Whether a is 0.
pub fn is_zero(a: i32) -> bool
    ensures { result ≡ is_zero a }
{
    a == 0
}
