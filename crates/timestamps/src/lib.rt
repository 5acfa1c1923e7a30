// Which numbers are timestamps.
#![tactic(auto)]

ghost use Rattle.std.specs.Prelude.{◌≡◌};
ghost use Rattle.model.specs.History.{is_timestamp};

// Whether a timestamp is from 1 to 2^64 - 2: not refusal 4.
pub fn is_timestamp(t: u64) -> bool
    ensures { result ≡ is_timestamp t }
{
    (0 < t) & (t < 18446744073709551615)
}
