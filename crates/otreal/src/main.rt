// otreal: reads 4-byte float bit patterns from standard input, high byte first, and prints a line each: the 16 bits whose f8.8 real has
// exactly these float bits, in four hex digits, or the number of the refusal.
#![tactic(auto)]

mod lines;

use input::Turn;
use lines::line;
use std::io;
use std::io::Read;

#[derive(Drop)]
struct Patterns<'a, R, P> {
    stdin: R,
    rt: &'a P,
}

impl<R: Read, P: Print> Turn for Patterns<'_, R, P> {
    // Reads one pattern, prints its line, and answers whether there may be another.
    fn turn(&mut self) -> io::Result<bool> {
        let mut bytes = [0u8; 4];
        if input::read_full(&mut self.stdin, &mut bytes)? < 4 {
            return Ok(false);
        }
        print::print(self.rt, line(u32::from_be_bytes(bytes)))?;
        Ok(true)
    }
}

fn main(rt: HostRuntime) -> io::Result<()> {
    input::while_more(&mut Patterns {
        stdin: rt.stdin(),
        rt: &rt,
    })
}
