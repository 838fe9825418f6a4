// "A slave's lines".
ghost use Rattle.std.specs.Prelude.{◌≡◌, true};
ghost use Rattle.machine.specs.Core.{flagged};
ghost use Rattle.machine.specs.Slave.{fallen, followed, clocked_at, clocked, rose_at, line_step};
ghost use Rattle.store.specs.View.{view};
ghost use Rattle.spi_core.specs.Steps.{stepped, if_slave};

use crate::{advance, is_slave};
use machine::{Core, Levels, Outcome, Shift, Transfer};
use store::Store;
use transfer::Wire;

// A fall of SPISEL sets its flags.
fn fall(core: &mut Core<Store>)
    ensures { view core.new ≡ flagged (fallen core.old.mode core.old.held.flags) (view core.old) }
{
    let m = core.mode;
    let flags = &mut core.held.flags;
    flags.modf |= m.master;
    flags.ipisr.modf |= m.master;
    flags.ipisr.smodf |= !m.master & !m.enable;
    flags.ipisr.selected |= is_slave(m);
}

// An edge of the element s: "It samples the MOSI given with the step."
fn follow(core: &mut Core<Store>, s: Shift, going: Outcome) -> Outcome
    ensures { stepped result (view core.new) ≡ followed s going (view core.old) }
{
    let mosi = core.seen.mosi;
    advance(core, s, mosi, going, true)
}

// A slave's start, which is its first edge: "if the store is empty it is starved".
fn start(core: &mut Core<Store>) -> Outcome
    ensures { stepped result (view core.new) ≡ clocked_at Transfer.Idle true (view core.old) }
{
    let s = Wire::of(core).decided(&core.held.tx);
    core.held.flags.ipisr.underrun |= s.starved;
    let going = if s.starved {
        Outcome::Starved
    } else {
        Outcome::MovedOn
    };
    follow(core, s, going)
}

// An edge of SCK, away from CPOL or towards it.
fn clock(core: &mut Core<Store>, away: bool) -> Outcome
    ensures { stepped result (view core.new) ≡ clocked_at core.old.transfer away (view core.old) }
{
    match core.transfer {
        Transfer::Idle if away => start(core),
        Transfer::Moving(s) => follow(core, s, Outcome::MovedOn),
        Transfer::Idle | Transfer::Gap => Outcome::Nothing,
    }
}

// SPISEL stays low: an enabled slave that isn't sitting out follows the edges of SCK.
fn stay_low(core: &mut Core<Store>, edge: bool) -> Outcome
    ensures { stepped result (view core.new)
        ≡ if_slave (view core.old) (clocked edge (view core.old)) }
{
    if !is_slave(core.mode) | !edge | core.sitting {
        return Outcome::Nothing;
    }
    let away = core.mode.cpol != core.seen.sck;
    clock(core, away)
}

// A rise of SPISEL: "in mid-element abandons it".
fn rise(core: &mut Core<Store>) -> Outcome
    ensures { stepped result (view core.new)
        ≡ if_slave (view core.old) (rose_at core.old.transfer (view core.old)) }
{
    if !is_slave(core.mode) {
        return Outcome::Nothing;
    }
    match core.transfer {
        Transfer::Moving(_) => {
            core.transfer = Transfer::Idle;
            Outcome::Abandoned
        }
        Transfer::Idle | Transfer::Gap => Outcome::Nothing,
    }
}

// One step of the lines that reach this core: it "stops sitting out at a high SPISEL". "SPISEL is looked at first; on the step where
// it falls or rises no SCK edge counts."
#[tactic(auto, unfolding(machine::specs::Slave::line_step))]
pub fn line_step(core: &mut Core<Store>, given: Levels) -> Outcome
    ensures { stepped result (view core.new) ≡ line_step given (view core.old) }
{
    let was = core.seen;
    core.seen = given;
    core.sitting &= !given.spisel;
    match (was.spisel, given.spisel) {
        (true, true) => Outcome::Nothing,
        (true, false) => {
            fall(core);
            Outcome::Nothing
        }
        (false, true) => rise(core),
        (false, false) => stay_low(core, was.sck != given.sck),
    }
}
