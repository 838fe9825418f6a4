// The lines that a core shows.
ghost use Rattle.std.specs.Prelude.{◌≡◌};
ghost use Rattle.machine.specs.Lines.{at_odd, is_idle, sck_of, ss_of, miso_between, miso_at, outputs};
ghost use Rattle.store.specs.View.{view};

use crate::{is_driving, is_master};
use machine::{Core, Outputs, Transfer};
use store::Store;
use transfer::Wire;

fn is_at_odd(t: Transfer) -> bool
    ensures { result ≡ at_odd t }
{
    matches!(t, Transfer::Moving(s) if s.odd)
}

fn is_idle(t: Transfer) -> bool
    ensures { result ≡ is_idle t }
{
    matches!(t, Transfer::Idle)
}

// "SCK rests at CPOL."
fn sck_of(core: &Core<Store>) -> bool
    ensures { result ≡ sck_of (view core.now) }
{
    core.mode.cpol != (is_master(core.mode) & is_at_odd(core.transfer))
}

// "SS lines are all high unless the core is an enabled master; then they show SPISSR".
fn ss_of(core: &Core<Store>) -> u32
    ensures { result ≡ ss_of (view core.now) }
{
    let k = core.setup.slaves;
    if is_master(core.mode) & (core.mode.manual | !is_idle(core.transfer)) {
        element::cut(k, core.select.into())
    } else {
        registers::none_selected(k)
    }
}

// "Between elements MISO shows the first bit of the Tx head at CPHA 0 (0 if empty), and 0 at CPHA 1."
#[tactic(auto, unfolding(machine::specs::Transfer::decided))]
fn miso_between(core: &Core<Store>) -> bool
    ensures { result ≡ miso_between (view core.now) }
{
    let s = Wire::of(core).decided(&core.held.tx);
    !core.mode.cpha & transfer::first_level(s.left, s.out)
}

// "In mid-element it shows the bit being sent".
fn miso_at(core: &Core<Store>) -> bool
    ensures { result ≡ miso_at core.now.transfer (view core.now) }
{
    match core.transfer {
        Transfer::Moving(s) => Wire::of(core).sending(s),
        Transfer::Idle | Transfer::Gap => miso_between(core),
    }
}

// The core's own outputs; it changes nothing.
#[tactic(auto, unfolding(machine::specs::Lines::outputs))]
pub fn lines(core: &Core<Store>) -> Outputs
    ensures { result ≡ outputs (view core.now) }
{
    let driven = is_driving(core);
    let shown = !core.sitting & miso_at(core);
    Outputs {
        sck: sck_of(core),
        mosi: core.mosi,
        miso: shown | !driven,
        interrupt: registers::interrupt_line(core.held.flags),
        driven,
        ss: ss_of(core),
    }
}
