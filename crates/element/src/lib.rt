// The bits of an element of n bits. A width over 32 counts as 32: no element is wider.
#![tactic(auto)]

ghost use Rattle.std.specs.Prelude.{◌≡◌, min};
ghost use Rattle.machine.specs.Element.{level_of, element_of, reversed, shifted_in};

// The level of the bit that has k bits after it: low where there is no such bit.
#[tactic(auto, using(crate::proofs::Laws::no_bit))]
pub fn level(x: u32, k: u32) -> bool
    ensures { result ≡ level_of x k }
{
    k < 32 && (x >> k) % 2 == 1
}

// The value modulo 2^n. The shift is of 32 bits: one of 64 takes longer.
pub fn cut(n: u32, v: u64) -> u32
    ensures { result ≡ element_of (min n 32) v }
{
    if n < 32 {
        (v % u64::from(1u32 << n)) as u32
    } else {
        (v % 0x1_0000_0000) as u32
    }
}

// One more bit behind those that came in.
pub fn shifted_in(n: u32, level: bool, got: u32) -> u32
    ensures { result ≡ shifted_in (min n 32) level got }
{
    cut(n, 2 * u64::from(got) + u64::from(level))
}

// The n last bits of x in the opposite order.
#[tactic(auto, using(crate::proofs::Laws::bit_fits), unfolding(machine::specs::Element::reversed))]
pub fn reversed(n: u32, x: u32) -> u32
    ensures { result ≡ reversed (min n 32) x }
{
    let mut got = 0;
    for i in 0..n.min(32) {
        got = 2 * got + (x >> i) % 2;
    }
    got
}
