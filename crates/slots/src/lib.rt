#![tactic(auto)]

ghost use Rattle.std.specs.Prelude.{◌≡◌, ◌+◌, ◌-◌, ◌^◌, ◌<◌};
ghost use Rattle.slots.specs.Slots.{slot_end, slot_start, slot_before, slot_after};

// Slots are counted from 1 on, boundaries from 0 on; boundary b is the end of slot b.
#[derive(Clone, Copy)]
pub struct Slot(pub usize);

#[derive(Clone, Copy)]
pub struct Boundary(pub usize);

impl Slot {
    // The one step from slots to boundaries.
    pub fn end(self) -> Boundary
        ensures { result.0 ≡ slot_end self.0 }
    {
        Boundary(self.0)
    }

    // Where the slot starts: the end of the one before it, or 0.
    pub fn start(self) -> Boundary
        requires { 0 < self.0 }
        ensures { result.0 ≡ slot_start self.0 }
    {
        self.end().before()
    }
}

impl Boundary {
    // The boundary before this one.
    pub fn before(self) -> Boundary
        requires { 0 < self.0 }
        ensures { result.0 ≡ self.0 - 1 }
    {
        Boundary(self.0 - 1)
    }

    // The one step back: the slot that ends here. At boundary 0 no slot does, and 0 is none.
    pub fn slot_before(self) -> Slot
        ensures { result.0 ≡ slot_before self.0 }
    {
        Slot(self.0)
    }

    // The slot that starts here.
    pub fn slot_after(self) -> Slot
        requires { self.0 + 1 < 2 ^ 64 }
        ensures { result.0 ≡ slot_after self.0 }
    {
        Slot(self.0 + 1)
    }
}
