// What can be read of a sheet without changing it.
ghost use Rattle.std.specs.Prelude.{◌≡◌, length};
ghost use Rattle.sheet.specs.Memory.{state_of};

use crate::sheet::Sheet;
use trail::trail::Trail;

impl<'r, 's> Sheet<'r, 's> {
    // The rows and the record.
    pub fn trail(&self) -> &Trail<'r, 's>
        ensures { result.now ≡ self.now.trail }
    {
        &self.trail
    }

    // How many marks are open.
    pub fn open(&self) -> usize
        ensures { result ≡ length (state_of self.now).opened }
    {
        self.marks.len()
    }

    // How many marks were given.
    pub fn given(&self) -> usize
        ensures { result ≡ (state_of self.now).given }
    {
        self.given
    }
}
