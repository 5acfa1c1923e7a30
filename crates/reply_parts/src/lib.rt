// The parts of a reply that no table is lent for: the lines of its entries, those of its settings, and whether a turn was idle.
#![tactic(auto)]

ghost use Rattle.std.specs.Prelude.{◌≡◌, true, ◌+◌, ◌≤◌, length};
ghost use Rattle.text.specs.Pieces.{Put};
ghost use Rattle.model.specs.Answers.{as_turned};
ghost use Rattle.model.specs.Package.{layout_fits};
ghost use Rattle.reply_parts.specs.Parts.{entry_lines, is_idle, setting_lines};

use fresh::start_value;
use lines::{put_entry, put_setting};
use model::{Refusal, Turn};
use packages::{entry_count, kind_at};

// The lines of the entries, with the numbers of their answers.
pub fn put_entries(bytes: &[u8], answers: &[u8], text: &mut [u8]) -> usize
    requires { (layout_fits bytes.now ≡ true) × (length answers.now ≡ 512) × (32768 ≤ length text.old) }
    ensures put { Put 0 (entry_lines bytes.now answers.now) text.old text.new result }
    ensures upper_bound { result ≤ 32768 }
{
    let count = entry_count(bytes);
    let mut end = 0;
    for j in 0..count {
        end = put_entry(j, kind_at(bytes, j), answers[j], text, end);
    }
    end
}

// Whether a turn was idle.
pub fn is_idle(answer: Result<Turn, Refusal>) -> bool
    ensures { result ≡ is_idle (as_turned answer) }
{
    matches!(answer, Ok(Turn::Idle))
}

// The lines of the settings that differ from their start.
pub fn put_settings(view: &[i32], text: &mut [u8], at: usize) -> usize
    requires { (length view.now ≡ 1024) × (at + 65536 ≤ length text.old) }
    ensures put { Put at (setting_lines view.now) text.old text.new result }
    ensures upper_bound { result ≤ at + 65536 }
{
    let mut end = at;
    for (setting, value) in view.iter().enumerate() {
        end = put_setting(setting, start_value(setting), *value, text, end);
    }
    end
}
