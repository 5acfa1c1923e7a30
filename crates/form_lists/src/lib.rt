// The test of the places' lists: at most 32 entries, of distinct settings, with zeros behind them.
#![tactic(auto)]

ghost use Rattle.std.specs.Prelude.{◌≡◌, cond, ◌+◌, set};
ghost use Rattle.general.specs.Lists.{all_below};
ghost use Rattle.model.specs.Form.{distinct_settings, list_fits};
ghost use Rattle.form_lists.specs.Marks.{ListSlots, MarkedBelow, is_new};

use zeros::all_zero;

// Whether a setting is below 1,024 and not marked with the row's number. If so, it is marked.
fn mark(setting: u16, marks: &mut [u16; 1024], row: u16) -> bool
    ensures { (result ≡ is_new row setting marks.old)
        × (marks.new ≡ cond result (set marks.old setting row) marks.old) }
{
    let s = setting as usize;
    if 1024 <= s {
        return false;
    }
    if marks[s] == row {
        return false;
    }
    marks[s] = row;
    true
}

// Whether the settings are below 1,024 and none stands twice. Each is marked once it was met, two a turn.
fn distinct_settings(settings: &[u16], marks: &mut [u16; 1024], row: u16) -> bool
    requires { MarkedBelow row marks.old }
    ensures { (result ≡ distinct_settings settings.now) × MarkedBelow (row + 1) marks.new }
{
    let mut i = settings.len();
    while 1 < i {
        i -= 2;
        if !mark(settings[i + 1], marks, row) {
            return false;
        }
        if !mark(settings[i], marks, row) {
            return false;
        }
    }
    if i == 1 {
        return mark(settings[0], marks, row);
    }
    true
}

// Whether the list of a place has at most 32 entries, of distinct settings, with zeros behind them. The row's number is the place's and 1.
fn list_fits(
    i: usize,
    counts: &[u16],
    settings: &[u16],
    values: &[i32],
    marks: &mut [u16; 1024],
) -> bool
    requires { ListSlots (i + 1) counts.now settings.now values.now × MarkedBelow (i + 1) marks.old }
    ensures { (result ≡ list_fits counts.now settings.now values.now i)
        × MarkedBelow (i + 2) marks.new }
{
    let count = counts[i] as usize;
    if 32 < count {
        return false;
    }
    let start = 32 * i;
    let used = start + count;
    let end = start + 32;
    distinct_settings(&settings[start..used], marks, i as u16 + 1)
        & (all_zero(&settings[used..end]) & all_zero(&values[used..end]))
}

// Whether the lists of the first count places have at most 32 entries, of distinct settings, with zeros behind them.
pub fn lists_fit(count: usize, counts: &[u16], settings: &[u16], values: &[i32]) -> bool
    requires { ListSlots count counts.now settings.now values.now }
    ensures { result ≡ all_below count (list_fits counts.now settings.now values.now) }
{
    let mut marks = [0u16; 1024];
    for i in 0..count {
        if !list_fits(i, counts, settings, values, &mut marks) {
            return false;
        }
    }
    true
}
