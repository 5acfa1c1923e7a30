// The run record: what passes by value from one instruction to the next. The read and write lists stand in arrays of
// the caller, as many entries of them as the record counts.
#![tactic(auto)]

ghost use Rattle.std.specs.Prelude.{◌≡◌, ◌+◌, ◌<◌, ◌≤◌, set};
ghost use Rattle.run_record.specs.Record.{pick, begun, assigned, advanced, ended, entered_read, entered_write, is_whole, no_lists, with_read, with_write};

// Why a run breaks off: a register names no setting; and in version 0, it reads a setting that it has written, it writes one twice.
#[derive(Clone, Copy, PartialEq, Eq, Drop)]
pub enum Fault {
    NoSetting,
    ReadsWritten,
    WritesTwice,
}

// How a run stands between two instructions.
#[derive(Clone, Copy, PartialEq, Eq, Drop)]
pub enum Status {
    Going,
    Stopped,
    Faulted(Fault),
}

// The lists of a run, as many entries of each as its record counts: the settings read, the values seen in them, the settings
// written, the values written to them.
#[derive(Drop)]
pub struct Lists {
    pub sources: [u16; 32],
    pub seen: [i32; 32],
    pub targets: [u16; 32],
    pub written: [i32; 32],
}

impl Lists {
    // The arrays before a run.
    pub fn new() -> Self
        ensures { result ≡ no_lists }
    {
        Self {
            sources: [0; 32],
            seen: [0; 32],
            targets: [0; 32],
            written: [0; 32],
        }
    }
}

// A run between two instructions.
#[derive(Clone, Copy, Drop)]
pub struct Run {
    // The version of the rules: 0, or any other for version 1.
    pub version: u16,
    pub registers: [i32; 8],
    pub place: usize,
    // How many entries the lists have.
    pub reads: usize,
    pub writes: usize,
    pub status: Status,
}

// v where a is i, else w.
pub fn pick(a: usize, i: usize, v: i32, w: i32) -> i32
    ensures { result ≡ pick a i v w }
{
    if a == i { v } else { w }
}

impl Run {
    // The start of a run by the rules of a version.
    pub fn new(version: u16) -> Self
        ensures { result ≡ begun version }
    {
        Self {
            version,
            registers: [0; 8],
            place: 0,
            reads: 0,
            writes: 0,
            status: Status::Going,
        }
    }

    // Whether the run did not break off.
    pub fn is_whole(self) -> bool
        ensures { result ≡ is_whole self.status }
    {
        !matches!(self.status, Status::Faulted(_))
    }

    // Register a set to v. The stores are at literal places, so that the registers stay in machine registers.
    pub fn assign(mut self, a: usize, v: i32) -> Self
        requires { a < 8 }
        ensures { result ≡ assigned self a v }
    {
        let r = [
            pick(a, 0, v, self.registers[0]),
            pick(a, 1, v, self.registers[1]),
            pick(a, 2, v, self.registers[2]),
            pick(a, 3, v, self.registers[3]),
            pick(a, 4, v, self.registers[4]),
            pick(a, 5, v, self.registers[5]),
            pick(a, 6, v, self.registers[6]),
            pick(a, 7, v, self.registers[7]),
        ];
        self.registers = r;
        self
    }

    // The run past this instruction and k more.
    pub fn advance(mut self, k: usize) -> Self
        requires { self.place + 1 + k ≤ 32 }
        ensures { result ≡ advanced self k }
    {
        let p = self.place;
        self.place = p + 1 + k;
        self
    }

    // The run stopped.
    pub fn stop(mut self) -> Self
        ensures { result ≡ ended self Status.Stopped self.writes }
    {
        self.status = Status::Stopped;
        self
    }

    // The run broken off by a fault: it writes nothing.
    pub fn fault(mut self, fault: Fault) -> Self
        ensures { result ≡ ended self (Status.Faulted fault) 0 }
    {
        self.status = Status::Faulted(fault);
        self.writes = 0;
        self
    }

    // Setting s entered into the read list with the value v.
    pub fn enter_read(mut self, s: u16, v: i32, lists: &mut Lists) -> Self
        requires { self.reads < 32 }
        ensures { (result ≡ entered_read self) × (lists.new ≡ with_read self.reads s v lists.old) }
    {
        let n = self.reads;
        lists.sources[n] = s;
        lists.seen[n] = v;
        self.reads = n + 1;
        self
    }

    // Setting s entered into the write list with the value v.
    pub fn enter_write(mut self, s: u16, v: i32, lists: &mut Lists) -> Self
        requires { self.writes < 32 }
        ensures { (result ≡ entered_write self) × (lists.new ≡ with_write self.writes s v lists.old) }
    {
        let n = self.writes;
        lists.targets[n] = s;
        lists.written[n] = v;
        self.writes = n + 1;
        self
    }
}
