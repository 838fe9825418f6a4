// A benchmark: 1,000,000 elements of 8 bits through the ticks of one core in loopback, refilled as they drain. It writes the sum of
// the elements read back.
#![tactic(auto)]

use bus::reads::read;
use bus::setup::setup;
use bus::writes::write;
use machine::{Core, Outcome};
use std::io;
use store::Store;

#[derive(Drop)]
struct Pace {
    core: Core<Store>,
    next: u32,
    sum: u64,
}

impl Pace {
    // A finished element is read back, and the next one written.
    fn turn(&mut self, element: u32) {
        let _ = read(&mut self.core, 0x6C, 15);
        let _ = write(&mut self.core, 0x68, 15, self.next);
        self.next = self.next % 251 + 1;
        self.sum = self.sum % 0x1_0000_0000 + u64::from(element);
    }

    fn tick(&mut self) {
        if let Outcome::Stored(element) = spi_core::master::tick(&mut self.core, true) {
            self.turn(element);
        }
    }
}

fn main(rt: HostRuntime) -> io::Result<()> {
    let Ok(mut core) = setup(8, 16, 1) else {
        return Ok(());
    };
    for (offset, value) in [(0x60, 0x87), (0x68, 1), (0x68, 2)] {
        let _ = write(&mut core, offset, 15, value);
    }
    let mut pace = Pace {
        core,
        next: 3,
        sum: 0,
    };
    for _ in 0..18_000_000u32 {
        pace.tick();
    }
    println!(rt; "{}", pace.sum)
}
