// cases: what the code gives for the tried numbers of 01 that a person would look up first, a line each.
#![tactic(auto)]

use std::io;
use values::Typed;

// A word from its fields, as P1 to P4 print it.
fn built<P: Print>(rt: &P, number: u8, t: u8, id: u8, value: u16) -> io::Result<()> {
    match word::build(t, id, value) {
        Ok(w) => println!(rt; "P{number} {w:08X}"),
        Err(refusal) => println!(rt; "P{number} refused {}", refusal.number()),
    }
}

// The float bits of a raw number of id 25, as P5 to P7 print them.
fn real<P: Print>(rt: &P, number: u8, raw: u16) -> io::Result<()> {
    match values::typed_of(25, raw) {
        Typed::Real(x) if !x.is_nan() => println!(rt; "P{number} {:08X}", x.to_bits()),
        _ => println!(rt; "P{number} no real"),
    }
}

fn main(rt: HostRuntime) -> io::Result<()> {
    built(&rt, 1, 0, 25, 0)?;
    built(&rt, 2, 1, 1, 0x3c00)?;
    built(&rt, 3, 7, 25, 0)?;
    built(&rt, 4, 6, 25, 0)?;
    real(&rt, 5, 0x3280)?;
    real(&rt, 6, 0xff00)?;
    real(&rt, 7, 0x8000)
}
