// A core as bought, at power-on.
ghost use Rattle.std.specs.Prelude.{◌≡◌};
ghost use Rattle.machine.specs.Bought.{bought};
ghost use Rattle.machine.specs.Core.{setup};
ghost use Rattle.store.specs.View.{view_made};

use crate::reset;
use machine::{Bought, Core, Flags, Held, Levels, Mode, Setup, SetupRefusal, Transfer};
use store::Store;

// "Setup refusals, in order, yield no core: 1 width, 2 depth, 3 slave count."
#[tactic(auto, unfolding(machine::specs::Bought::bought))]
fn bought(width: u32, depth: u32, slaves: u32) -> Bought
    ensures { result ≡ bought width depth slaves }
{
    if !matches!(width, 8 | 16 | 32) {
        return Err(SetupRefusal::Width);
    }
    if !matches!(depth, 0 | 16) {
        return Err(SetupRefusal::Depth);
    }
    if !matches!(slaves, 1..=32) {
        return Err(SetupRefusal::Slaves);
    }
    Ok(Setup {
        width,
        depth,
        slaves,
    })
}

// A core as bought, at power-on: it "has seen SPISEL high, SCK and MOSI low."
#[tactic(auto, unfolding(machine::specs::Core::setup, machine::specs::Core::power_on))]
pub fn setup(width: u32, depth: u32, slaves: u32) -> Result<Core<Store>, SetupRefusal>
    ensures { view_made result ≡ setup width depth slaves }
{
    let mut core = Core {
        setup: bought(width, depth, slaves)?,
        mode: Mode::default(),
        select: 0,
        held: Held {
            tx: Store::new(),
            rx: Store::new(),
            flags: Flags::default(),
        },
        transfer: Transfer::Idle,
        mosi: false,
        seen: Levels {
            spisel: true,
            sck: false,
            mosi: false,
        },
        sitting: false,
    };
    reset(&mut core);
    Ok(core)
}
