// "When the bus says SLVERR": reads of the registers.
ghost use Rattle.std.specs.Prelude.{◌≡◌, OnErr};
ghost use Rattle.machine.specs.Store.{occupancy};
ghost use Rattle.machine.specs.Registers.{status_word};
ghost use Rattle.machine.specs.Access.{read_status, read_rx, read_from, read};
ghost use Rattle.store.specs.Cells.{elements};
ghost use Rattle.store.specs.View.{view};
ghost use Rattle.bus.specs.Answers.{answered, Accesses};

use crate::reached;
use machine::{Answer, Core, Refusal, Register};
use registers::{Status, Word};
use store::Store;

// "Occupancy reads as elements minus one, and 0 when empty."
fn occupancy(store: &Store) -> u32
    ensures { result ≡ occupancy (elements store.now) }
{
    store.count().saturating_sub(1)
}

// SPISR as it reads, from its bits (000, Table 7).
#[tactic(auto, unfolding(machine::specs::Registers::status_word))]
fn status_word(core: &Core<Store>) -> u32
    ensures { result ≡ status_word (view core.now) }
{
    let held = &core.held;
    let room = transfer::room_of(core.setup);
    let status = Status {
        rx_empty: held.rx.is_empty(),
        rx_full: held.rx.is_full(room),
        tx_empty: held.tx.is_empty(),
        tx_full: held.tx.is_full(room),
        modf: held.flags.modf,
        unselected: !spi_core::is_driving(core),
    };
    status.word()
}

// "Reading SPISR clears MODF after the read."
#[tactic(auto, unfolding(machine::specs::Access::read_status))]
fn read_status(core: &mut Core<Store>) -> u32
    ensures { answered (Ok result) (view core.new) ≡ read_status (view core.old) }
{
    let word = status_word(core);
    core.held.flags.modf = false;
    word
}

// 13: "SPIDRR read while its store is empty".
#[tactic(auto, unfolding(machine::specs::Access::read_rx))]
fn read_rx(core: &mut Core<Store>) -> Answer
    ensures gives { answered result (view core.new) ≡ read_rx (view core.old) }
    ensures same { OnErr result (core.new ≡ core.old) }
{
    core.held.rx.pop_front().ok_or(Refusal::RxEmpty)
}

// A read of a register that is there: a write-only one reads 0.
#[tactic(auto, unfolding(machine::specs::Access::read_from))]
fn read_from(r: Register, core: &mut Core<Store>) -> Answer
    ensures gives { answered result (view core.new) ≡ read_from r (view core.old) }
    ensures same { OnErr result (core.new ≡ core.old) }
{
    let word = match r {
        Register::Dgier => registers::global_word(core.held.flags.dgier),
        Register::Ipisr => core.held.flags.ipisr.word(),
        Register::Ipier => core.held.flags.ipier.word(),
        Register::Spicr => core.mode.word(),
        Register::Spisr => read_status(core),
        Register::Spidrr => read_rx(core)?,
        Register::Spissr => core.select,
        Register::TxOccupancy => occupancy(&core.held.tx),
        Register::RxOccupancy => occupancy(&core.held.rx),
        Register::Srr | Register::Spidtr => 0,
    };
    Ok(word)
}

// A read over the bus: refusals 10 and 11 first, then the register's own.
pub fn read(core: &mut Core<Store>, offset: u32, lanes: u32) -> Answer
    ensures { Accesses core.old result core.new (read offset lanes) }
{
    let r = reached(core.setup, offset, lanes)?;
    read_from(r, core)
}
