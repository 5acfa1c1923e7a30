// Zeros: whether a slice holds nothing else, and a slice set to them.
#![tactic(auto)]

ghost use Rattle.std.specs.Prelude.{◌≡◌, List, [], ◌∷◌, Bool, true, ◌&&◌, pos, refl, eqb, length, drop, replicate};
ghost use Rattle.words.specs.Words.{is_zero};
ghost use Rattle.model.specs.Form.{all_zero, all_zero_z};

// The numbers that the tables hold.
pub trait Slot: Copy {
    const ZERO: Self;

    ghost ZERO: { Self };

    // Whether a number is 0.
    ghost zero: { Self → Bool };

    // Whether every number of a list is 0.
    ghost zeros: { List Self → Bool };

    fn is_zero(self) -> bool
        ensures { result ≡ zero self };

    // The bits of both numbers.
    fn or(self, other: Self) -> Self
        ensures { zero result ≡ (zero self && zero other) };

    ghost zero_is_zero: { zero ZERO ≡ true };

    ghost no_numbers: { zeros [] ≡ true };

    ghost one_number_more: { (x : Self) (l : List Self) → zeros (x ∷ l) ≡ (zero x && zeros l) };

    // A copy is the number itself.
    ghost is_copied: { (x : Self) → Self.is_infallible x };

    ghost same_copy: { (x y : Self) → Self.is_clone x y → y ≡ x };
}

impl Slot for u8 {
    const ZERO: u8 = 0;

    ghost ZERO = { 0 };

    ghost zero = { λ x. eqb x 0 };

    ghost zeros = { all_zero };

    fn is_zero(self) -> bool {
        self == 0
    }

    #[tactic(auto, using(crate::proofs::Joined::unsigned_or))]
    fn or(self, other: u8) -> u8 {
        self | other
    }

    ghost zero_is_zero = { refl };

    ghost no_numbers = { refl };

    ghost one_number_more = { λ x l. refl };

    ghost is_copied = { λ x. tt };

    ghost same_copy = { λ x y e. e };
}

impl Slot for u16 {
    const ZERO: u16 = 0;

    ghost ZERO = { 0 };

    ghost zero = { λ x. eqb x 0 };

    ghost zeros = { all_zero };

    fn is_zero(self) -> bool {
        self == 0
    }

    #[tactic(auto, using(crate::proofs::Joined::unsigned_or))]
    fn or(self, other: u16) -> u16 {
        self | other
    }

    ghost zero_is_zero = { refl };

    ghost no_numbers = { refl };

    ghost one_number_more = { λ x l. refl };

    ghost is_copied = { λ x. tt };

    ghost same_copy = { λ x y e. e };
}

impl Slot for u64 {
    const ZERO: u64 = 0;

    ghost ZERO = { 0 };

    ghost zero = { λ x. eqb x 0 };

    ghost zeros = { all_zero };

    fn is_zero(self) -> bool {
        self == 0
    }

    #[tactic(auto, using(crate::proofs::Joined::unsigned_or))]
    fn or(self, other: u64) -> u64 {
        self | other
    }

    ghost zero_is_zero = { refl };

    ghost no_numbers = { refl };

    ghost one_number_more = { λ x l. refl };

    ghost is_copied = { λ x. tt };

    ghost same_copy = { λ x y e. e };
}

impl Slot for i32 {
    const ZERO: i32 = 0;

    ghost ZERO = { pos 0 };

    ghost zero = { is_zero };

    ghost zeros = { all_zero_z };

    fn is_zero(self) -> bool {
        self == 0
    }

    #[tactic(auto, using(crate::proofs::Joined::signed_or))]
    fn or(self, other: i32) -> i32 {
        self | other
    }

    ghost zero_is_zero = { refl };

    ghost no_numbers = { refl };

    ghost one_number_more = { λ x l. refl };

    ghost is_copied = { λ x. tt };

    ghost same_copy = { λ x y e. e };
}

// Whether every element from a start on is 0. The bits of all are gathered, with no exit.
pub fn rest_zero<T: Slot>(s: &[T], start: usize) -> bool
    ensures { result ≡ T.zeros (drop start s.now) }
{
    let mut any = T::ZERO;
    for x in &s[start.min(s.len())..] {
        any = any.or(*x);
    }
    any.is_zero()
}

// Whether every element is 0.
pub fn all_zero<T: Slot>(s: &[T]) -> bool
    ensures { result ≡ T.zeros s.now }
{
    rest_zero(s, 0)
}

// Every element set to 0.
pub fn clear<T: Slot>(s: &mut [T])
    ensures { s.new ≡ replicate (length s.old) T.ZERO }
{
    s.fill(T::ZERO);
}
