// One core: what moves it, and what it shows.
#![tactic(auto)]

ghost use Rattle.std.specs.Prelude.{◌≡◌};
ghost use Rattle.machine.specs.Core.{is_master, is_slave};
ghost use Rattle.machine.specs.Registers.{is_driving};
ghost use Rattle.machine.specs.Transfer.{edge};
ghost use Rattle.machine.specs.Bought.{bits_of};
ghost use Rattle.store.specs.View.{view};
ghost use Rattle.spi_core.specs.Steps.{stepped, advanced};

use machine::{Core, Edge, Mode, Outcome, Shift, Transfer};
use store::Store;
use transfer::Wire;

pub mod lines; // the lines that a core shows
pub mod master; // a master's ticks
pub mod slave; // a slave's line steps

fn is_master(m: Mode) -> bool
    ensures { result ≡ is_master m }
{
    m.enable & m.master
}

fn is_slave(m: Mode) -> bool
    ensures { result ≡ is_slave m }
{
    m.enable & !m.master
}

// An enabled slave that has SPISEL low: it drives MISO.
pub fn is_driving(core: &Core<Store>) -> bool
    ensures { result ≡ is_driving (view core.now) }
{
    is_slave(core.mode) & !core.seen.spisel
}

// Another core that is the same.
pub fn copied(core: &Core<Store>) -> Core<Store>
    ensures { result ≡ core.now }
{
    *core
}

// An edge of the element s, at which its line has this level: it goes on, or its last edge finishes it. Then comes a master's gap.
fn advance(core: &mut Core<Store>, s: Shift, level: bool, going: Outcome, slave: bool) -> Outcome
    ensures { stepped result (view core.new)
        ≡ advanced (edge core.old.mode.cpha (bits_of core.old.setup) level s) going s.starved slave (view core.old) }
{
    let wire = Wire::of(core);
    match wire.edge(level, s) {
        Edge::On(t) => {
            core.transfer = Transfer::Moving(t);
            going
        }
        Edge::Over(got) => {
            core.transfer = if slave { Transfer::Idle } else { Transfer::Gap };
            transfer::finish(
                &mut core.held,
                core.setup,
                slave,
                s.starved,
                wire.on_wire(got),
            )
        }
    }
}
