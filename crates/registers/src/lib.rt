// The registers: which one answers at an offset, and the words that the bus reads and writes of their bits.
#![tactic(auto)]

ghost use Rattle.std.specs.Prelude.{◌≡◌, ◌-◌, ◌^◌, ◌≤◌, ℕ, min, false, [], ◌∷◌};
ghost use Rattle.machine.specs.Element.{word_of};
ghost use Rattle.machine.specs.Registers.{global_word, place_of, control_word, mode_of, interrupt_word, interrupts_of, toggled, interrupt_line};
ghost use Rattle.machine.specs.Control.{changes};
ghost use Rattle.machine.specs.Access.{zeros_in};
ghost use Rattle.machine.proofs.Agree.{mode_again, interrupts_again};

use machine::{Flags, Interrupts, Mode, Place, Register, Setup};

// The register that answers at an offset (000, Table 4). Those that are there at any depth stand apart, so that they are one look-up.
#[tactic(auto, unfolding(machine::specs::Registers::place_of, machine::specs::Registers::lookup))]
pub fn place(z: Setup, offset: u32) -> Place
    ensures { result ≡ place_of z offset }
{
    match offset {
        0x1C => Place::Register(Register::Dgier),
        0x20 => Place::Register(Register::Ipisr),
        0x28 => Place::Register(Register::Ipier),
        0x40 => Place::Register(Register::Srr),
        0x60 => Place::Register(Register::Spicr),
        0x64 => Place::Register(Register::Spisr),
        0x68 => Place::Register(Register::Spidtr),
        0x6C => Place::Register(Register::Spidrr),
        0x70 => Place::Register(Register::Spissr),
        _ => {
            if z.depth == 0 {
                return Place::Nothing;
            }
            match offset {
                0x74 => Place::Register(Register::TxOccupancy),
                0x78 => Place::Register(Register::RxOccupancy),
                _ => Place::Nothing,
            }
        }
    }
}

// A register's word, from its bits: bit 0 first.
#[tactic(auto, using(crate::proofs::Words::words))]
fn word_of<const N: usize>(bits: [bool; N]) -> u32
    requires { N ≤ 32 }
    ensures { result ≡ word_of bits.entry }
{
    let mut word = 0;
    for bit in bits.iter().rev() {
        word = 2 * word + u32::from(*bit);
    }
    word
}

// A register's bits that the bus both reads and writes.
pub trait Word {
    ghost word: { Self → ℕ };

    ghost of: { ℕ → Self };

    // The word that it reads.
    fn word(self) -> u32
        ensures { result ≡ word self };

    // What a write of this word sets.
    fn of(v: u32) -> Self
        ensures { result ≡ of v };

    // What is written is what it reads.
    ghost again: { (bits : Self) → of (word bits) ≡ bits };
}

// SPICR: bits 5 and 6 "both read 0" (000, Table 6).
impl Word for Mode {
    ghost word = { control_word };

    ghost of = { mode_of };

    ghost again = { mode_again };

    #[tactic(auto, unfolding(machine::specs::Registers::control_word))]
    fn word(self) -> u32 {
        word_of([
            self.loopback,
            self.enable,
            self.master,
            self.cpol,
            self.cpha,
            false, // Tx FIFO reset
            false, // Rx FIFO reset
            self.manual,
            self.inhibit,
            self.lsb,
        ])
    }

    #[tactic(auto, unfolding(machine::specs::Registers::mode_of))]
    fn of(v: u32) -> Mode {
        Mode {
            loopback: element::level(v, 0),
            enable: element::level(v, 1),
            master: element::level(v, 2),
            cpol: element::level(v, 3),
            cpha: element::level(v, 4),
            manual: element::level(v, 7),
            inhibit: element::level(v, 8),
            lsb: element::level(v, 9),
        }
    }
}

// IPISR and IPIER (000, Tables 14 and 15).
impl Word for Interrupts {
    ghost word = { interrupt_word };

    ghost of = { interrupts_of };

    ghost again = { interrupts_again };

    #[tactic(auto, unfolding(machine::specs::Registers::interrupt_word))]
    fn word(self) -> u32 {
        word_of([
            self.modf,
            self.smodf,
            self.emptied,
            self.underrun,
            self.filled,
            self.overrun,
            self.half,
            self.selected,
            self.arrived,
        ])
    }

    #[tactic(auto, unfolding(machine::specs::Registers::interrupts_of))]
    fn of(v: u32) -> Interrupts {
        Interrupts {
            modf: element::level(v, 0),
            smodf: element::level(v, 1),
            emptied: element::level(v, 2),
            underrun: element::level(v, 3),
            filled: element::level(v, 4),
            overrun: element::level(v, 5),
            half: element::level(v, 6),
            selected: element::level(v, 7),
            arrived: element::level(v, 8),
        }
    }
}

// The bits of SPISR (000, Table 7).
#[derive(Clone, Copy, PartialEq, Eq)]
pub struct Status {
    pub rx_empty: bool,
    pub rx_full: bool,
    pub tx_empty: bool,
    pub tx_full: bool,
    pub modf: bool,
    // "Is 0 exactly while an enabled slave has SPISEL low."
    pub unselected: bool,
}

impl Status {
    // SPISR as it reads.
    pub fn word(self) -> u32
        ensures { result ≡ word_of (self.rx_empty ∷ self.rx_full ∷ self.tx_empty ∷ self.tx_full ∷ self.modf ∷ self.unselected ∷ []) }
    {
        word_of([
            self.rx_empty,
            self.rx_full,
            self.tx_empty,
            self.tx_full,
            self.modf,
            self.unselected,
        ])
    }
}

// DGIER as it reads: "bit 31 only" (000, Table 13).
pub fn global_word(b: bool) -> u32
    ensures { result ≡ global_word b }
{
    u32::from(b) << 31
}

// IPISR: "writing 1 to a bit toggles it".
#[tactic(auto, using(crate::proofs::Laws::differs), unfolding(machine::specs::Registers::toggled))]
pub fn toggled(i: Interrupts, j: Interrupts) -> Interrupts
    ensures { result ≡ toggled i j }
{
    Interrupts {
        modf: i.modf ^ j.modf,
        smodf: i.smodf ^ j.smodf,
        emptied: i.emptied ^ j.emptied,
        underrun: i.underrun ^ j.underrun,
        filled: i.filled ^ j.filled,
        overrun: i.overrun ^ j.overrun,
        half: i.half ^ j.half,
        selected: i.selected ^ j.selected,
        arrived: i.arrived ^ j.arrived,
    }
}

// "The interrupt line is high when DGIER bit 31 is set and IPISR and IPIER share a set bit."
#[tactic(auto, unfolding(machine::specs::Registers::interrupt_line))]
pub fn interrupt_line(f: Flags) -> bool
    ensures { result ≡ interrupt_line f }
{
    let i = f.ipisr;
    let j = f.ipier;
    let share = i.modf & j.modf
        | i.smodf & j.smodf
        | i.emptied & j.emptied
        | i.underrun & j.underrun
        | i.filled & j.filled
        | i.overrun & j.overrun
        | i.half & j.half
        | i.selected & j.selected
        | i.arrived & j.arrived;
    f.dgier & share
}

// Whether a SPICR write "changes any of bits 0 to 4, 7 or 9": any but bit 8.
pub fn changes(m: Mode, n: Mode) -> bool
    ensures { result ≡ changes m n }
{
    let m = Mode {
        inhibit: n.inhibit,
        ..m
    };
    m != n
}

// The zeros in the k last bits of v: refusal 15 is "SPISSR written with two or more zeros in its K bits".
#[tactic(auto, unfolding(machine::specs::Access::zeros_in))]
pub fn zeros_in(k: u32, v: u32) -> u32
    ensures { result ≡ zeros_in (min k 32) v }
{
    let mut zeros = 0;
    for i in 0..k.min(32) {
        zeros += u32::from(!element::level(v, i));
    }
    zeros
}

// SPISSR is "K bits, active low, reset all ones" (000, Table 10): all ones modulo 2^k.
#[tactic(auto, using(crate::proofs::Laws::all_ones))]
pub fn none_selected(k: u32) -> u32
    ensures { result ≡ 2 ^ min k 32 - 1 }
{
    element::cut(k, 0xFFFF_FFFF)
}
