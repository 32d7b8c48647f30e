//! The slots on offer: those given back, the last one first, and how many were ever taken.
ghost use Rattle.std.specs.Prelude.{◌≡◌, ℕ, ◌+◌, ◌-◌, ◌≤◌, ◌<◌, List, [], ◌∷◌, length, set, MatchOption};

use super::judge::MOST_WIRES;
use std::marker::Model;

// The slots given back, the last one on top. The room is fixed, a place for each slot that there may be,
// since the library has no heap. It is lent, so that the height is kept in a register and not beside it.
#[derive(Drop)]
pub struct Free<'a> {
    slots: &'a mut [u32; MOST_WIRES],
    height: usize,
}

impl<'a> Model for Free<'a> {
    ghost use Rattle.std.specs.Prelude.{List, ℕ, ◌≡◌, ◌≤◌, length};
    ghost use Rattle.scratch.specs.Working.Arrays.{stack};

    ghost Value = { List ℕ };

    ghost view = { λ f. stack f.slots.now f.height };

    ghost invariant = { λ f. (f.height ≤ 8192) × (length f.slots.now ≡ 8192) };
}

impl<'a> Free<'a> {
    fn new(room: &'a mut [u32; MOST_WIRES]) -> Self
        ensures { result ≡ [] }
    {
        Free {
            slots: room,
            height: 0,
        }
    }

    #[tactic(auto, using(crate::proofs::Stacks::length_stack))]
    fn len(&self) -> u32
        ensures { result ≡ length self.now }
    {
        self.height as u32
    }

    #[tactic(auto, using(crate::proofs::Stacks::length_stack, crate::proofs::Stacks::stack_push))]
    fn push(&mut self, slot: u32)
        requires { length self.old < 8192 }
        ensures { self.new ≡ slot ∷ self.old }
    {
        self.slots[self.height] = slot;
        self.height += 1;
    }

    fn pop(&mut self) -> Option<u32>
        ensures { MatchOption result ((self.old ≡ []) × (self.new ≡ [])) (λ slot. self.old ≡ slot ∷ self.new) }
    {
        if self.height == 0 {
            return None;
        }
        self.height -= 1;
        Some(self.slots[self.height])
    }
}

#[derive(Drop)]
pub struct Stock<'a> {
    pub free: Free<'a>,
    pub size: u32,
}

impl<'a> Stock<'a> {
    ghost use Rattle.scratch.specs.Policies.{takes};
    ghost use Rattle.scratch.specs.Working.{pool_of};

    pub fn new(room: &'a mut [u32; MOST_WIRES]) -> Self
        ensures free { result.free ≡ [] }
        ensures size { result.size ≡ 0 }
    {
        Stock {
            free: Free::new(room),
            size: 0,
        }
    }

    // The slot last given back, else a new one.
    pub fn take(&mut self) -> u32
        requires { self.old.size < 4294967295 }
        ensures takes { (slots : List ℕ) → (w : ℕ) → pool_of (set slots w result) self.new ≡ takes slots self.old.free self.old.size w }
        ensures room { self.new.size ≤ self.old.size + 1 }
    {
        match self.free.pop() {
            Some(slot) => slot,
            None => {
                let slot = self.size;
                self.size += 1;
                slot
            }
        }
    }

    pub fn give(&mut self, slot: u32)
        requires { length self.old.free < 8192 }
        ensures free { self.new.free ≡ slot ∷ self.old.free }
        ensures size { self.new.size ≡ self.old.size }
    {
        self.free.push(slot);
    }

    // How many wires are living: they have the slots that are not free.
    pub fn living(&self) -> u32
        requires { length self.now.free ≤ self.now.size }
        ensures { result ≡ self.now.size - length self.now.free }
    {
        self.size - self.free.len()
    }
}
