// A first-in first-out store: its elements stand one behind the other, from the ring's head on, round the 256 cells. What
// putting and taking promise is the list of them (`elements`), and where they stand only of a store that refuses.
#![tactic(auto)]

ghost use Rattle.std.specs.Prelude.{◌≡◌, List, ℕ, [], min, length, OnErr, IfNone};
ghost use Rattle.machine.specs.Store.{empty, full, first};
ghost use Rattle.store.specs.Cells.{held, elements, front, empty_ring, Puts, Takes};

// What `put` says of a store that has no room.
#[derive(Clone, Copy, Debug, PartialEq, Eq)]
pub struct Full;

// Where the elements stand: how many from which cell on.
#[derive(Clone, Copy, PartialEq, Eq)]
pub struct Ring {
    pub head: u32,
    pub count: u32,
}

impl Ring {
    // No element, from cell 0 on.
    pub fn empty() -> Self
        ensures { result ≡ empty_ring }
    {
        Ring { head: 0, count: 0 }
    }

    // How many elements there are.
    pub fn count(self) -> u32
        ensures { (cells : List ℕ) → result ≡ length (held self cells) }
    {
        self.count
    }

    pub fn is_empty(self) -> bool
        ensures { (cells : List ℕ) → result ≡ empty (held self cells) }
    {
        self.count == 0
    }

    // Whether there are `room` elements, or as many as there are cells.
    pub fn is_full(self, room: u32) -> bool
        ensures { (cells : List ℕ) → result ≡ full (min room 256) (held self cells) }
    {
        room <= self.count || 256 <= self.count
    }

    // The first element, which stays, or 0 where there is none.
    pub fn first(self, cells: &[u32; 256]) -> u32
        ensures { result ≡ first (held self cells.now) }
    {
        if self.is_empty() {
            return 0;
        }
        cells[(self.head % 256) as usize]
    }

    // The first element leaves; 0 where there is none.
    pub fn take(&mut self, cells: &[u32; 256]) -> u32
        ensures { Takes first (held self.old cells.now) result (held self.new cells.now) }
    {
        let element = self.first(cells);
        if self.count != 0 {
            self.head = self.head % 256 + 1;
            self.count -= 1;
        }
        element
    }

    // One more element behind the others, unless there is no room: then neither the ring nor a cell changes.
    pub fn put(&mut self, cells: &mut [u32; 256], room: u32, x: u32) -> Result<(), Full>
        ensures puts { Puts (held self.old cells.old) room x result (held self.new cells.new) }
        ensures same { OnErr result ((self.new ≡ self.old) × (cells.new ≡ cells.old)) }
    {
        if self.is_full(room) {
            return Err(Full);
        }
        let at = (self.head % 256 + self.count) % 256;
        cells[at as usize] = x;
        self.count += 1;
        Ok(())
    }
}

#[derive(Clone, Copy)]
pub struct Store {
    ring: Ring,
    cells: [u32; 256],
}

impl Store {
    // A store that holds nothing.
    pub fn new() -> Self
        ensures { elements result ≡ [] }
    {
        Store {
            ring: Ring::empty(),
            cells: [0; 256],
        }
    }

    // The store of these cells whose elements stand where the ring says.
    pub fn over(ring: Ring, cells: [u32; 256]) -> Self
        ensures { elements result ≡ held ring cells }
    {
        Store { ring, cells }
    }

    // Another store that is the same.
    pub fn copied(&self) -> Self
        ensures { result ≡ self.now }
    {
        *self
    }

    // How many elements it holds.
    pub fn count(&self) -> u32
        ensures { result ≡ length (elements self.now) }
    {
        self.ring.count()
    }

    pub fn is_empty(&self) -> bool
        ensures { result ≡ empty (elements self.now) }
    {
        self.ring.is_empty()
    }

    // Whether it holds `room` elements, or as many as there are cells.
    pub fn is_full(&self, room: u32) -> bool
        ensures { result ≡ full (min room 256) (elements self.now) }
    {
        self.ring.is_full(room)
    }

    // The first element, which stays, or 0 where there is none.
    pub fn first(&self) -> u32
        ensures { result ≡ first (elements self.now) }
    {
        self.ring.first(&self.cells)
    }

    // The first element, which stays.
    pub fn front(&self) -> Option<u32>
        ensures { result ≡ front (elements self.now) }
    {
        if self.is_empty() {
            return None;
        }
        Some(self.first())
    }

    // The first element leaves; 0 where there is none.
    pub fn take(&mut self) -> u32
        ensures { Takes first (elements self.old) result (elements self.new) }
    {
        self.ring.take(&self.cells)
    }

    // The first element leaves.
    pub fn pop_front(&mut self) -> Option<u32>
        ensures takes { Takes front (elements self.old) result (elements self.new) }
        ensures same { IfNone result (self.new ≡ self.old) }
    {
        if self.is_empty() {
            None
        } else {
            Some(self.take())
        }
    }

    // One more element behind the others, unless the store is full.
    pub fn put(&mut self, room: u32, x: u32) -> Result<(), Full>
        ensures puts { Puts (elements self.old) room x result (elements self.new) }
        ensures same { OnErr result (self.new ≡ self.old) }
    {
        self.ring.put(&mut self.cells, room, x)
    }

    // All elements leave.
    pub fn clear(&mut self)
        ensures { elements self.new ≡ [] }
    {
        self.ring = Ring::empty();
    }
}
