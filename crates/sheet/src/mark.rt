// Marks: what a planner holds to go back to, or to keep, and what the sheet remembers of it.
ghost use Rattle.std.specs.Prelude.{◌≡◌};

// A mark. It can be neither copied nor let go: it has to be spent, once, by `back` or by `keep`.
pub struct Mark {
    pub(crate) serial: usize,
}

impl Mark {
    // The number of marks that the sheet had given before this one.
    pub fn serial(&self) -> usize
        ensures { result ≡ self.now.serial }
    {
        self.serial
    }
}

// An entry of the mark memory: an open mark's serial, and how many struck choices the record held when it was given.
#[derive(Clone, Copy, PartialEq, Eq, Default)]
pub struct OpenMark {
    pub(crate) serial: usize,
    pub(crate) height: usize,
}

impl OpenMark {
    // An entry to fill mark memory with. Beside `Default`, since it says which entry that is.
    pub fn blank() -> OpenMark
        ensures serial { result.serial ≡ 0 }
        ensures height { result.height ≡ 0 }
    {
        OpenMark::default()
    }
}
