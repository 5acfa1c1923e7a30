// The lent tables: their lengths, the test of their form, and how many changes they hold.
#![tactic(auto)]

pub mod form;

ghost use Rattle.std.specs.Prelude.{◌≡◌, length, get_or};

// The seventeen tables, lent to a call that alters none of them. What they show is one record, `shown` of specs/Lent.
#[derive(Clone, Copy)]
pub struct Tables<'a> {
    pub held: &'a [u16],
    pub timestamps: &'a [u64],
    pub order: &'a [u16],
    pub status: &'a [u16],
    pub withdrawn: &'a [u16],
    pub lengths: &'a [u16],
    pub programs: &'a [u8],
    pub reads: &'a [u16],
    pub writes: &'a [u16],
    pub sources: &'a [u16],
    pub seen: &'a [i32],
    pub targets: &'a [u16],
    pub written: &'a [i32],
    pub view: &'a [i32],
    pub versions: &'a [u16],
    pub cutoff: &'a [u64],
    pub kept: &'a [i32],
}

// How many changes are held.
pub fn held_count(held: &[u16]) -> usize
    requires { length held.now ≡ 1 }
    ensures { result ≡ get_or held.now 0 0 }
{
    held[0] as usize
}
