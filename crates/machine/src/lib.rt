// The paper's plain types: what a core is bought as, what it holds, what it is asked and what it answers. The definitions of
// specs/ and the code of the other crates speak of these same values; only the stores are lists there, and `store::Store` in the code.
#![tactic(auto)]

ghost use Rattle.std.specs.Prelude.{◌≡◌, Some};
ghost use Rattle.machine.specs.Bought.{number_of_setup_refusal};
ghost use Rattle.machine.specs.Access.{number_of_refusal};
ghost use Rattle.machine.specs.Words.{words_of_setup_refusal, setup_refusal_text, words_of_refusal, refusal_text};

use std::fmt;

// ---- The core as bought

// Width N, FIFO depth and slave count K.
#[derive(Clone, Copy, PartialEq, Eq)]
pub struct Setup {
    pub width: u32,
    pub depth: u32,
    pub slaves: u32,
}

// What setup refuses.
#[derive(Clone, Copy, Debug, PartialEq, Eq)]
pub enum SetupRefusal {
    Width,
    Depth,
    Slaves,
}

impl SetupRefusal {
    pub fn number(self) -> u32
        ensures { result ≡ number_of_setup_refusal self }
    {
        match self {
            SetupRefusal::Width => 1,
            SetupRefusal::Depth => 2,
            SetupRefusal::Slaves => 3,
        }
    }

    fn words(self) -> &'static str
        ensures { result.now ≡ words_of_setup_refusal self }
    {
        match self {
            SetupRefusal::Width => "width",
            SetupRefusal::Depth => "depth",
            SetupRefusal::Slaves => "slave count",
        }
    }
}

// As `3: slave count`.
impl fmt::Display for SetupRefusal {
    ghost output = { λ e. Some (setup_refusal_text e) };

    fn fmt<W: fmt::Write>(&self, f: &mut fmt::Formatter<W>) -> fmt::Result {
        write!(f, "{}: {}", self.number(), self.words())
    }
}

// What setup answers: the core as bought, or what it refuses.
pub type Bought = Result<Setup, SetupRefusal>;

// The registers, in the order of their offsets.
#[derive(Clone, Copy, Debug, PartialEq, Eq)]
pub enum Register {
    Dgier,
    Ipisr,
    Ipier,
    Srr,
    Spicr,
    Spisr,
    Spidtr,
    Spidrr,
    Spissr,
    TxOccupancy,
    RxOccupancy,
}

// What answers at an offset.
#[derive(Clone, Copy, Debug, PartialEq, Eq)]
pub enum Place {
    Register(Register),
    Nothing,
}

// The bits of SPICR that are kept: 5 and 6 act as they are written, and never are.
#[derive(Clone, Copy, Default, PartialEq, Eq)]
pub struct Mode {
    pub loopback: bool,
    pub enable: bool,
    pub master: bool,
    pub cpol: bool,
    pub cpha: bool,
    pub manual: bool,
    pub inhibit: bool,
    pub lsb: bool,
}

// Bits 0 to 8 of IPISR and of IPIER, in that order.
#[derive(Clone, Copy, Default, PartialEq, Eq)]
pub struct Interrupts {
    // MODF: SPISEL fell with the master bit set.
    pub modf: bool,
    // Slave MODF: SPISEL fell on a core that is neither enabled nor master.
    pub smodf: bool,
    // The Tx store was emptied by a finished transfer.
    pub emptied: bool,
    pub underrun: bool,
    // The Rx store was made full.
    pub filled: bool,
    pub overrun: bool,
    // Tx half empty.
    pub half: bool,
    // SPISEL fell on an enabled slave.
    pub selected: bool,
    // An enabled slave's Rx FIFO went from 0 to 1.
    pub arrived: bool,
}

// IPISR, IPIER, DGIER's bit and SPISR's MODF.
#[derive(Clone, Copy, Default, PartialEq, Eq)]
pub struct Flags {
    pub ipisr: Interrupts,
    pub ipier: Interrupts,
    pub dgier: bool,
    pub modf: bool,
}

// ---- A transfer, and the lines

// An element under way: the bits left, whether the odd edge of the first of them is done, what is sent in wire order, what
// came in so far, and whether the store was empty when it was decided.
#[derive(Clone, Copy, PartialEq, Eq)]
pub struct Shift {
    pub left: u32,
    pub odd: bool,
    pub out: u32,
    pub got: u32,
    pub starved: bool,
}

#[derive(Clone, Copy, PartialEq, Eq)]
pub enum Transfer {
    Idle,
    Moving(Shift),
    Gap,
}

// What an edge leaves: a transfer that goes on, or behind its last edge what came in, in wire order.
#[derive(Clone, Copy, PartialEq, Eq)]
pub enum Edge {
    On(Shift),
    Over(u32),
}

// The levels of a line step.
#[derive(Clone, Copy, PartialEq, Eq)]
pub struct Levels {
    pub spisel: bool,
    pub sck: bool,
    pub mosi: bool,
}

// A core's own outputs.
#[derive(Clone, Copy, PartialEq, Eq)]
pub struct Outputs {
    pub sck: bool,
    pub mosi: bool,
    pub miso: bool,
    pub interrupt: bool,
    pub driven: bool,
    pub ss: u32,
}

// What a tick or a line step came to.
#[derive(Clone, Copy, Debug, PartialEq, Eq)]
pub enum Outcome {
    Nothing,
    MovedOn,
    Stored(u32),
    Lost(u32),
    Starved,
    Abandoned,
}

// ---- What a core holds between two calls. S is what a store is: the list of its elements in the definitions, `store::Store` in the
// code, in whose place `view` of store's specs/View.antt puts that list

// The two stores and the flags: all that a finish changes, and all that an access changes that is no control, select or reset write.
#[derive(Clone, Copy, Drop)]
pub struct Held<S> {
    pub tx: S,
    pub rx: S,
    pub flags: Flags,
}

#[derive(Clone, Copy, Drop)]
pub struct Core<S> {
    pub setup: Setup,
    pub mode: Mode,
    // SPISSR.
    pub select: u32,
    pub held: Held<S>,
    pub transfer: Transfer,
    // "MOSI holds its last level, 0 after reset."
    pub mosi: bool,
    // The line levels seen last.
    pub seen: Levels,
    // Sits out line edges until SPISEL is high.
    pub sitting: bool,
}

// ---- The bus

#[derive(Clone, Copy, PartialEq, Eq)]
pub enum Access {
    Write { offset: u32, lanes: u32, value: u32 },
    Read { offset: u32, lanes: u32 },
}

// What the bus refuses.
#[derive(Clone, Copy, Debug, PartialEq, Eq)]
pub enum Refusal {
    LanesOrOffset,
    NoRegister,
    TxFull,
    RxEmpty,
    ResetValue,
    TwoSelected,
}

impl Refusal {
    pub fn number(self) -> u32
        ensures { result ≡ number_of_refusal self }
    {
        match self {
            Refusal::LanesOrOffset => 10,
            Refusal::NoRegister => 11,
            Refusal::TxFull => 12,
            Refusal::RxEmpty => 13,
            Refusal::ResetValue => 14,
            Refusal::TwoSelected => 15,
        }
    }

    fn words(self) -> &'static str
        ensures { result.now ≡ words_of_refusal self }
    {
        match self {
            Refusal::LanesOrOffset => "lanes other than 15, or offset not a multiple of 4",
            Refusal::NoRegister => "no register there",
            Refusal::TxFull => "SPIDTR written while its store is full",
            Refusal::RxEmpty => "SPIDRR read while its store is empty",
            Refusal::ResetValue => "SRR written with another value than 0xA",
            Refusal::TwoSelected => "SPISSR written with two or more zeros in its K bits",
        }
    }
}

// As `12: SPIDTR written while its store is full`.
impl fmt::Display for Refusal {
    ghost output = { λ e. Some (refusal_text e) };

    fn fmt<W: fmt::Write>(&self, f: &mut fmt::Formatter<W>) -> fmt::Result {
        write!(f, "{}: {}", self.number(), self.words())
    }
}

// What the bus says: OKAY with a value, or SLVERR for one of the refusals.
pub type Answer = Result<u32, Refusal>;

// ---- The joined bench

#[derive(Clone, Copy, Debug, PartialEq, Eq)]
pub enum Side {
    Master,
    Slave,
}

// How a run ended: the master is idle with an empty Tx store, or the limit of ticks is spent.
#[derive(Clone, Copy, Debug, PartialEq, Eq)]
pub enum Ended {
    Drained,
    LimitSpent,
}

// ---- Scripts and logs

// What stands at a place of a script.
#[derive(Clone, Copy, PartialEq, Eq)]
pub enum Found {
    // A whole record: its kind, the length of its payload, and the place of the next.
    Whole { kind: u32, len: usize, next: usize },
    // A header or a payload cut short.
    CutShort,
    // The script ends here.
    End,
}

// What a record asks for.
#[derive(Clone, Copy, PartialEq, Eq)]
pub enum Command {
    Setup { width: u32, depth: u32, slaves: u32 },
    Write { offset: u32, lanes: u32, value: u32 },
    Read { offset: u32, lanes: u32 },
    Tick { miso: u32 },
    LineStep { levels: u32 },
    Unknown { kind: u32 },
}

// What a log record says of the command that it answers.
#[derive(Clone, Copy, PartialEq, Eq)]
pub enum Entry {
    Setup,
    Access(Answer),
    // What a tick or a line step came to, and the core's own outputs afterwards.
    Step { outcome: Outcome, lines: Outputs },
}
