// "A master's ticks".
ghost use Rattle.std.specs.Prelude.{◌≡◌};
ghost use Rattle.machine.specs.Master.{start_at, heard, ran_at, tick};
ghost use Rattle.machine.specs.Transfer.{edge};
ghost use Rattle.machine.specs.Bought.{bits_of};
ghost use Rattle.store.specs.Cells.{elements};
ghost use Rattle.store.specs.View.{view};
ghost use Rattle.spi_core.specs.Steps.{stepped};

use crate::{advance, is_master};
use machine::{Core, Outcome, Shift, Transfer};
use store::Store;
use transfer::Wire;

// An idle master starts if it is not inhibited and has an element.
fn start(core: &mut Core<Store>) -> Outcome
    ensures { stepped result (view core.new)
        ≡ start_at core.old.mode.inhibit (elements core.old.held.tx) (view core.old) }
{
    if core.mode.inhibit || core.held.tx.is_empty() {
        return Outcome::Nothing;
    }
    let s = Wire::of(core).decided(&core.held.tx);
    core.transfer = Transfer::Moving(s);
    if !core.mode.cpha {
        core.mosi = transfer::first_level(s.left, s.out);
    }
    Outcome::MovedOn
}

// An edge of the element s, whose last is the finish; then comes the gap.
fn run(core: &mut Core<Store>, s: Shift, miso: bool) -> Outcome
    ensures { stepped result (view core.new)
        ≡ ran_at (edge core.old.mode.cpha (bits_of core.old.setup) (heard miso (view core.old)) s) s (view core.old) }
{
    let heard = if core.mode.loopback { core.mosi } else { miso };
    core.mosi = Wire::of(core).changed(s, core.mosi);
    advance(core, s, heard, Outcome::MovedOn, false)
}

// One tick: half an SCK period, with the MISO level standing before it. "Ticking any other core changes nothing."
#[tactic(auto, unfolding(machine::specs::Master::tick))]
pub fn tick(core: &mut Core<Store>, miso: bool) -> Outcome
    ensures { stepped result (view core.new) ≡ tick miso (view core.old) }
{
    if !is_master(core.mode) {
        return Outcome::Nothing;
    }
    match core.transfer {
        Transfer::Idle => start(core),
        Transfer::Moving(s) => run(core, s, miso),
        Transfer::Gap => {
            core.transfer = Transfer::Idle;
            Outcome::MovedOn
        }
    }
}
