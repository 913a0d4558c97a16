ghost use Rattle.std.specs.Prelude.{◌≡◌, ◌<◌, ◌↔◌, [], ◌∷◌, length, IsTrue, MatchOption, slice_get};

use std::marker::Model;

// A slice and how much of it is used, since there is no heap here for a Vec. A clause sees the values, the newest first, and how many fit into the memory.
#[derive(Drop)]
pub struct Stack<'a, T> {
    slots: &'a mut [T],
    height: usize,
}

impl<'a, T> Model for Stack<'a, T> {
    ghost use Rattle.std.specs.Prelude.{◌≤◌, length};
    ghost use Rattle.lent.specs.Stack.{Contents, newest};

    ghost Value = { Contents T };

    ghost view = { λ s. record { items = newest s.slots.now s.height; capacity = length s.slots.now } };

    ghost invariant = { λ s. s.height ≤ length s.slots.now };
}

impl<'a, T: Copy> Stack<'a, T> {
    pub fn new(slots: &'a mut [T]) -> Stack<'a, T>
        ensures empty { result.items ≡ [] }
        ensures capacity { result.capacity ≡ length slots.old }
    {
        Stack { slots, height: 0 }
    }

    pub fn is_empty(&self) -> bool
        ensures { IsTrue result ↔ (self.now.items ≡ []) }
    {
        self.height == 0
    }

    pub fn push(&mut self, value: T)
        requires { length self.old.items < self.old.capacity }
        ensures items { self.new.items ≡ value ∷ self.old.items }
        ensures capacity { self.new.capacity ≡ self.old.capacity }
    {
        self.slots[self.height] = value;
        self.height += 1;
    }

    // The newest value, which is taken off.
    pub fn pop(&mut self) -> Option<T>
        ensures items { MatchOption result ((self.old.items ≡ []) × (self.new.items ≡ [])) (λ value. self.old.items ≡ value ∷ self.new.items) }
        ensures capacity { self.new.capacity ≡ self.old.capacity }
    {
        self.height = self.height.checked_sub(1)?;
        Some(self.slots[self.height])
    }

    // The newest value, which stays.
    pub fn top(&self) -> Option<T>
        ensures { result ≡ slice_get self.now.items 0 }
    {
        self.slots[..self.height].last().copied()
    }
}
