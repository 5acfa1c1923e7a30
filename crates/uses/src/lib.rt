// How far each setting matters: of each one past the last Valid change that reads it, and one past the last change that writes it.
#![tactic(auto)]

ghost use Rattle.std.specs.Prelude.{◌≡◌, ◌<◌, ◌≤◌, length};
ghost use Rattle.writers.specs.Writers.{OfSettings};
ghost use Rattle.uses.specs.Columns.{list_at, lent_columns, Listed, Walkable};
ghost use Rattle.uses.specs.Uses as uses;

// The order list, and the counts and the settings of the read and write lists by place.
#[derive(Clone, Copy, Drop)]
pub struct Columns<'a> {
    pub order: &'a [u16],
    pub reads: &'a [u16],
    pub sources: &'a [u16],
    pub writes: &'a [u16],
    pub targets: &'a [u16],
}

// Of each setting: up to where it has Valid readers, up to where it has writers, and how far it is settled.
#[derive(Drop)]
pub struct SettingUses {
    pub readers: [u16; 1024],
    pub writers: [u16; 1024],
    pub settled: [u16; 1024],
}

// A number of a table, as a position.
pub fn wide(number: u16) -> usize
    ensures { (result ≡ number) × (result < 65536) }
{
    usize::from(number)
}

// A number stored for each setting of a list.
fn note_list(settings: &[u16], number: u16, numbers: &mut [u16; 1024])
    requires { OfSettings settings.now }
    ensures { numbers.new ≡ uses.numbered settings.now number numbers.old }
{
    for s in settings {
        numbers[*s as usize] = number;
    }
}

// A number stored for each setting of a place's list.
fn note_at(place: usize, number: u16, counts: &[u16], settings: &[u16], numbers: &mut [u16; 1024])
    requires { Listed place counts.now settings.now
        × OfSettings (list_at counts.now settings.now place) }
    ensures { numbers.new
        ≡ uses.numbered (list_at counts.now settings.now place) number numbers.old }
{
    let begin = 32 * place;
    let end = begin + counts[place] as usize;
    note_list(&settings[begin..end], number, numbers);
}

impl SettingUses {
    // Nothing is noted.
    pub fn none() -> Self
        ensures { uses.NoneNoted result }
    {
        SettingUses {
            readers: [0; 1024],
            writers: [0; 1024],
            settled: [0; 1024],
        }
    }

    // From a position on, of each setting one past the last Valid change that reads it, and one past the last change that writes it; 0 where there is none.
    pub fn note_last(&mut self, from: usize, count: usize, columns: &Columns, status: &[u16])
        requires { (from ≤ count) × (count ≤ 4096) × (count ≤ length columns.now.order.now)
            × Walkable (lent_columns columns.now) (length status.now)
            × uses.NoUses self.old }
        ensures { uses.LastUses from count (lent_columns columns.now) status.now self.new.readers self.new.writers
            × (self.new.settled ≡ self.old.settled) }
    {
        for p in from..count {
            let place = columns.order[p] as usize;
            let next = (p + 1) as u16;
            let valid = status[place] == 1;
            if valid {
                note_at(
                    place,
                    next,
                    columns.reads,
                    columns.sources,
                    &mut self.readers,
                );
            }
            note_at(
                place,
                next,
                columns.writes,
                columns.targets,
                &mut self.writers,
            );
        }
    }

    // The last uses from a position on, where they are not noted yet.
    pub fn note(
        &mut self,
        noted: bool,
        from: usize,
        count: usize,
        columns: &Columns,
        status: &[u16],
    )
        requires { uses.Notable noted from count (lent_columns columns.now) (length status.now) self.old }
        ensures { uses.UsesNoted noted from count (lent_columns columns.now) status.now self.old self.new }
    {
        if !noted {
            self.note_last(from, count, columns, status);
        }
    }
}
