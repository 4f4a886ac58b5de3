// Stacks over lent memory, of entries of any one kind.
ghost use Rattle.std.specs.Prelude.{◌≡◌, ◌≤◌, min, [], length};
ghost use Rattle.std.specs.List.{slice_get};

use crate::refusal::StackError;

// A stack: the entries of its memory that lie below its top. No stack has its top past its memory. Slots and a top, and no `Vec`, since the
// memory is lent and the engine allocates nothing.
#[derive(Drop)]
pub struct Stack<'a, T> {
    slots: &'a mut [T],
    top: usize,
    ghost within: { top ≤ length slots.now },
}

impl<'a, T: Copy> Stack<'a, T> {
    ghost use Rattle.trail.specs.Stacks.{held, PushAnswer, PopAnswer};

    // An empty stack over memory, whose entries stay as they are.
    pub fn new(slots: &'a mut [T]) -> Stack<'a, T>
        ensures memory { result.slots.now ≡ slots.old }
        ensures empty { result.top ≡ 0 }
    {
        Stack { slots, top: 0 }
    }

    // How many entries it can hold.
    pub fn room(&self) -> usize
        ensures { result ≡ length self.now.slots.now }
    {
        self.slots.len()
    }

    // The entries it holds, bottom to top.
    pub fn entries(&self) -> &[T]
        ensures { result.now ≡ held self.now }
    {
        let slots = &*self.slots;
        &slots[..self.top]
    }

    // How many entries it holds.
    pub fn len(&self) -> usize
        ensures { result ≡ length (held self.now) }
    {
        self.entries().len()
    }

    // The entry at an index from the bottom, or none past the last.
    pub fn get(&self, index: usize) -> Option<T>
        ensures { result ≡ slice_get (held self.now) index }
    {
        self.entries().get(index).copied()
    }

    // Lays an entry on top.
    pub fn push(&mut self, entry: T) -> Result<(), StackError>
        ensures { PushAnswer self.old self.new entry result }
    {
        if self.top >= self.slots.len() {
            return Err(StackError::Full);
        }
        // Indexed, since after a write through `get_mut` nothing is known of the entries.
        self.slots[self.top] = entry;
        self.top += 1;
        Ok(())
    }

    // Takes the entry on top.
    pub fn pop(&mut self) -> Result<T, StackError>
        ensures { PopAnswer self.old self.new result }
    {
        let entry = self.entries().last().copied().ok_or(StackError::Empty)?;
        self.top -= 1;
        Ok(entry)
    }

    // Takes the entries from an index on; the memory stays as it is.
    pub fn truncate(&mut self, len: usize)
        ensures memory { self.new.slots.now ≡ self.old.slots.now }
        ensures rest { self.new.top ≡ min len self.old.top }
    {
        self.top = self.top.min(len);
    }

    // Takes all entries; the memory stays as it is.
    pub fn clear(&mut self)
        ensures memory { self.new.slots.now ≡ self.old.slots.now }
        ensures empty { self.new.top ≡ 0 }
    {
        self.top = 0;
    }
}
