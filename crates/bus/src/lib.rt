// "When the bus says SLVERR": setup, and reads and writes of a core's registers.
#![tactic(auto)]

ghost use Rattle.std.specs.Prelude.{◌≡◌};
ghost use Rattle.machine.specs.Core.{reset};
ghost use Rattle.machine.specs.Access.{whole_word};
ghost use Rattle.store.specs.View.{view};
ghost use Rattle.bus.specs.Answers.{reached};

use machine::{Core, Flags, Mode, Place, Refusal, Register, Setup, Transfer};
use store::Store;

pub mod reads; // reads of the registers
pub mod setup; // a core at power-on
pub mod writes; // writes of the registers

// 10: "lanes other than 15, or offset not a multiple of 4".
fn is_whole_word(offset: u32, lanes: u32) -> bool
    ensures { result ≡ whole_word offset lanes }
{
    (lanes == 15) & (offset % 4 == 0)
}

// The register that an access reaches: refusals 10 and 11, "checked in this order".
fn reached(z: Setup, offset: u32, lanes: u32) -> Result<Register, Refusal>
    ensures { result ≡ reached z offset lanes }
{
    if !is_whole_word(offset, lanes) {
        return Err(Refusal::LanesOrOffset);
    }
    let found = registers::place(z, offset);
    let Place::Register(r) = found else {
        return Err(Refusal::NoRegister);
    };
    Ok(r)
}

// Power-on values, all but the line levels seen: "sits out likewise" unless SPISEL is high.
#[tactic(auto, unfolding(machine::specs::Core::reset))]
fn reset(core: &mut Core<Store>)
    ensures { view core.new ≡ reset core.old.setup core.old.seen }
{
    core.mode = Mode {
        manual: true,
        inhibit: true,
        ..Mode::default()
    };
    core.select = registers::none_selected(core.setup.slaves);
    core.held.tx.clear();
    core.held.rx.clear();
    core.held.flags = Flags::default();
    core.transfer = Transfer::Idle;
    core.mosi = false;
    core.sitting = !core.seen.spisel;
}
