// "When the bus says SLVERR": writes of the registers.
ghost use Rattle.std.specs.Prelude.{◌≡◌, OnErr};
ghost use Rattle.machine.specs.Control.{controlled};
ghost use Rattle.machine.specs.Access.{write_tx, write_reset, write_select, write_to, write};
ghost use Rattle.store.specs.View.{view};
ghost use Rattle.bus.specs.Answers.{answered, written, Accesses};

use crate::{reached, reset};
use machine::{Answer, Core, Interrupts, Mode, Refusal, Register, Transfer};
use registers::Word;
use store::Store;

// A write to SPICR: what it changes, empties, abandons and has sat out. "If SPISEL is already high, nothing is sat out."
#[tactic(auto, unfolding(machine::specs::Control::controlled))]
fn control(core: &mut Core<Store>, v: u32)
    ensures { view core.new ≡ controlled v (view core.old) }
{
    let was = core.mode;
    let fifo = transfer::has_fifo(core.setup);
    let clears_tx = fifo & element::level(v, 5);
    let clears_rx = fifo & element::level(v, 6);
    core.mode = Mode::of(v);
    let disturbs = registers::changes(was, core.mode) | clears_tx;
    let inhibits = was.master & !was.inhibit & core.mode.inhibit;
    if clears_tx {
        core.held.tx.clear();
    }
    if clears_rx {
        core.held.rx.clear();
    }
    if disturbs | inhibits {
        core.transfer = Transfer::Idle;
    }
    if disturbs {
        core.sitting = !core.seen.spisel;
    }
}

// 12: "SPIDTR written while its store is full".
#[tactic(auto, unfolding(machine::specs::Access::write_tx))]
fn write_tx(core: &mut Core<Store>, v: u32) -> Result<(), Refusal>
    ensures gives { answered (written result) (view core.new) ≡ write_tx v (view core.old) }
    ensures same { OnErr result (core.new ≡ core.old) }
{
    let room = transfer::room_of(core.setup);
    let x = element::cut(core.setup.width, v.into());
    core.held.tx.put(room, x).map_err(|_| Refusal::TxFull)
}

// 14: "SRR written with another value".
#[tactic(auto, unfolding(machine::specs::Access::write_reset, machine::specs::Control::reset_again))]
fn write_reset(core: &mut Core<Store>, v: u32) -> Result<(), Refusal>
    ensures gives { answered (written result) (view core.new) ≡ write_reset v (view core.old) }
    ensures same { OnErr result (core.new ≡ core.old) }
{
    if v != 0xA {
        return Err(Refusal::ResetValue);
    }
    reset(core);
    Ok(())
}

// 15: "SPISSR written with two or more zeros in its K bits".
#[tactic(auto, unfolding(machine::specs::Access::write_select))]
fn write_select(core: &mut Core<Store>, v: u32) -> Result<(), Refusal>
    ensures gives { answered (written result) (view core.new) ≡ write_select v (view core.old) }
    ensures same { OnErr result (core.new ≡ core.old) }
{
    let k = core.setup.slaves;
    if 2 <= registers::zeros_in(k, v) {
        return Err(Refusal::TwoSelected);
    }
    core.select = element::cut(k, v.into());
    Ok(())
}

// A write of a register that is there: a read-only one changes nothing.
#[tactic(auto, unfolding(machine::specs::Access::write_to))]
fn write_to(r: Register, core: &mut Core<Store>, v: u32) -> Answer
    ensures gives { answered result (view core.new) ≡ write_to r v (view core.old) }
    ensures same { OnErr result (core.new ≡ core.old) }
{
    let flags = &mut core.held.flags;
    match r {
        Register::Dgier => flags.dgier = element::level(v, 31),
        Register::Ipisr => flags.ipisr = registers::toggled(flags.ipisr, Interrupts::of(v)),
        Register::Ipier => flags.ipier = Interrupts::of(v),
        Register::Spicr => control(core, v),
        Register::Srr => write_reset(core, v)?,
        Register::Spidtr => write_tx(core, v)?,
        Register::Spissr => write_select(core, v)?,
        Register::Spisr | Register::Spidrr | Register::TxOccupancy | Register::RxOccupancy => (),
    }
    Ok(0)
}

// A write over the bus: refusals 10 and 11 first, then the register's own.
pub fn write(core: &mut Core<Store>, offset: u32, lanes: u32, v: u32) -> Answer
    ensures { Accesses core.old result core.new (write offset lanes v) }
{
    let r = reached(core.setup, offset, lanes)?;
    write_to(r, core, v)
}
