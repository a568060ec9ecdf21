// The counts of a desk: files opened, reads and writes that failed.
ghost use Rattle.std.specs.Prelude.{◌≡◌, ◌≤◌};
ghost use Rattle.mv_desk.specs.View.{raised};

/// How many calls a desk had of each kind. A count stands still at its type's end.
#[derive(Clone, Copy)]
pub struct Counts {
    /// files that were opened for reading, or failed to open
    pub opened: u64,
    pub read_faults: u64,
    pub write_faults: u64,
}

impl Counts {
    pub fn new() -> Counts
        ensures { result ≡ record { opened = 0; read_faults = 0; write_faults = 0 } }
    {
        Counts {
            opened: 0,
            read_faults: 0,
            write_faults: 0,
        }
    }

    pub fn count_opened(&mut self)
        ensures raised { self.new.opened ≡ raised self.old.opened }
        ensures later { self.old.opened ≤ self.new.opened }
        ensures read_faults { self.new.read_faults ≡ self.old.read_faults }
        ensures write_faults { self.new.write_faults ≡ self.old.write_faults }
    {
        self.opened = self.opened.saturating_add(1);
    }

    pub fn count_read_fault(&mut self)
        ensures raised { self.new.read_faults ≡ raised self.old.read_faults }
        ensures later { self.old.read_faults ≤ self.new.read_faults }
        ensures opened { self.new.opened ≡ self.old.opened }
        ensures write_faults { self.new.write_faults ≡ self.old.write_faults }
    {
        self.read_faults = self.read_faults.saturating_add(1);
    }

    pub fn count_write_fault(&mut self)
        ensures raised { self.new.write_faults ≡ raised self.old.write_faults }
        ensures later { self.old.write_faults ≤ self.new.write_faults }
        ensures opened { self.new.opened ≡ self.old.opened }
        ensures read_faults { self.new.read_faults ≡ self.old.read_faults }
    {
        self.write_faults = self.write_faults.saturating_add(1);
    }
}
