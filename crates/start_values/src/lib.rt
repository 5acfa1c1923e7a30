// The factory settings: the value that each setting starts at, in one constant table.
#![tactic(auto)]

mod table;

ghost use Rattle.std.specs.Prelude.{◌≡◌};
ghost use Rattle.start_values.specs.StartValues.{start_table};

use table::START_TABLE;

// The table.
pub fn start_table() -> [i32; 1024]
    ensures { result ≡ start_table }
{
    START_TABLE
}
