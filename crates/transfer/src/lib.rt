// What master and slave share: the element to be sent, its edges, and its finish. A width over 32 counts as 32.
#![tactic(auto)]

ghost use Rattle.std.specs.Prelude.{◌≡◌, min, max};
ghost use Rattle.machine.specs.Element.{wire, first_level};
ghost use Rattle.machine.specs.Bought.{room_of, has_fifo};
ghost use Rattle.machine.specs.Transfer.{head_on_wire, decided, sampled, edge, changed, sending};
ghost use Rattle.store.specs.Cells.{elements};
ghost use Rattle.store.specs.View.{view_held, view};
ghost use Rattle.transfer.specs.Wire.{wire_of, wire_bits, leaving, Finishes};

use machine::{Core, Edge, Held, Outcome, Setup, Shift};
use store::Store;

// How elements go over the wire: LSB first or not, sampled on even edges or on odd ones, and N bits each.
#[derive(Clone, Copy, PartialEq, Eq)]
pub struct Wire {
    pub lsb: bool,
    pub cpha: bool,
    pub width: u32,
}

impl Wire {
    // The wire of a core.
    pub fn of(core: &Core<Store>) -> Self
        ensures { result ≡ wire_of (view core.now) }
    {
        Wire {
            lsb: core.mode.lsb,
            cpha: core.mode.cpha,
            width: core.setup.width,
        }
    }

    // An element as the wire has it, first bit on top, and from the wire back.
    pub fn on_wire(self, x: u32) -> u32
        ensures { result ≡ wire self.lsb (wire_bits self) x }
    {
        if self.lsb {
            element::reversed(self.width, x)
        } else {
            x
        }
    }

    // The Tx head in wire order, 0 where there is none.
    fn head_on_wire(self, tx: &Store) -> u32
        ensures { result ≡ head_on_wire self.lsb (wire_bits self) (elements tx.now) }
    {
        match tx.front() {
            Some(x) => self.on_wire(x),
            None => 0,
        }
    }

    // The element that a start copies: no bit is clocked yet.
    #[tactic(auto, unfolding(machine::specs::Transfer::decided))]
    pub fn decided(self, tx: &Store) -> Shift
        ensures { result ≡ decided self.lsb (wire_bits self) (elements tx.now) }
    {
        Shift {
            left: self.width.min(32),
            odd: false,
            out: self.head_on_wire(tx),
            got: 0,
            starved: tx.is_empty(),
        }
    }

    // What came in so far, after an edge at which the line has this level.
    fn sampled(self, even: bool, level: bool, got: u32) -> u32
        ensures { result ≡ sampled self.cpha even (wire_bits self) level got }
    {
        if self.cpha == even {
            element::shifted_in(self.width, level, got)
        } else {
            got
        }
    }

    // The transfer after its next edge, at which the line that it samples has this level.
    pub fn edge(self, level: bool, s: Shift) -> Edge
        ensures { result ≡ edge self.cpha (wire_bits self) level s }
    {
        if s.left == 0 {
            return Edge::Over(s.got);
        }
        let got = self.sampled(s.odd, level, s.got);
        if !s.odd {
            return Edge::On(Shift {
                odd: true,
                got,
                ..s
            });
        }
        if s.left == 1 {
            return Edge::Over(got);
        }
        Edge::On(Shift {
            left: s.left - 1,
            odd: false,
            got,
            ..s
        })
    }

    // The level of the line that sends s, behind the next edge: one that changes it shows the next bit, if there is one.
    pub fn changed(self, s: Shift, level: bool) -> bool
        ensures { result ≡ changed self.cpha s level }
    {
        if self.cpha == s.odd {
            return level;
        }
        match s.left.checked_sub(1 + u32::from(s.odd)) {
            Some(k) => element::level(s.out, k),
            None => level,
        }
    }

    // The bit of s being sent.
    #[tactic(auto, using(crate::proofs::Edges::sends_none, crate::proofs::Edges::sends_still, crate::proofs::Edges::sends))]
    pub fn sending(self, s: Shift) -> bool
        ensures { result ≡ sending self.cpha s }
    {
        if s.left == 0 {
            return false;
        }
        if self.cpha & !s.odd {
            return element::level(s.out, s.left);
        }
        element::level(s.out, s.left - 1)
    }
}

// The first bit on the wire of an element of n bits.
pub fn first_level(n: u32, x: u32) -> bool
    ensures { result ≡ first_level n x }
{
    match n.checked_sub(1) {
        Some(k) => element::level(x, k),
        None => false,
    }
}

// What each store holds at most; the store itself counts no more than its cells.
pub fn room_of(z: Setup) -> u32
    ensures room { result ≡ max z.depth 1 }
    ensures of_cells { min result 256 ≡ room_of z }
{
    z.depth.max(1)
}

pub fn has_fifo(z: Setup) -> bool
    ensures { result ≡ has_fifo z }
{
    z.depth != 0
}

// The head leaves behind a finish: a starved one removes nothing.
fn leave(tx: &mut Store, starved: bool)
    ensures { elements tx.new ≡ leaving starved (elements tx.old) }
{
    if !starved {
        tx.take();
    }
}

// The finish of a transfer that received x: "the Tx head leaves; the received element is stored, or lost if the Rx store is full".
pub fn finish(held: &mut Held<Store>, z: Setup, slave: bool, starved: bool, x: u32) -> Outcome
    ensures { Finishes z slave starved x (view_held held.old) result (view_held held.new) }
{
    let room = room_of(z);
    let fifo = has_fifo(z);
    let elements = held.tx.count();
    let arrived = slave & fifo & held.rx.is_empty();
    leave(&mut held.tx, starved);
    let stored = held.rx.put(room, x).is_ok();
    let filled = stored & held.rx.is_full(room);
    let flags = &mut held.flags.ipisr;
    flags.emptied |= !starved & (elements <= 1);
    flags.filled |= filled;
    flags.overrun |= !stored;
    flags.half |= !starved & fifo & (elements == z.depth / 2 + 1);
    flags.arrived |= arrived;
    if stored {
        Outcome::Stored(x)
    } else {
        Outcome::Lost(x)
    }
}
