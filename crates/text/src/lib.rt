// A line of text in ASCII, by value: bytes, words and numbers put one after the other.
#![tactic(auto)]

ghost use Rattle.std.specs.Prelude.{◌≡◌, ◌<◌};
ghost use Rattle.text.specs.Text.{empty_text, pushed, puts, says, hex_digit, decimal_of, hex_of};

// The bytes of a line, the first `len` of them used. No vector of fixed room: the library's is no `Copy`, and a line is.
#[derive(Clone, Copy)]
pub struct Text {
    pub bytes: [u8; 120],
    pub len: usize,
}

impl Text {
    const ROOM: usize = 120;

    #[tactic(auto, unfolding(crate::specs::Text::empty_text))]
    pub fn empty() -> Self
        ensures { result ≡ empty_text }
    {
        Text {
            bytes: [0; 120],
            len: 0,
        }
    }

    // One byte more, in place: by value a line would be copied for each byte. A full line stays as it is.
    #[tactic(auto, unfolding(crate::specs::Text::pushed))]
    fn append(&mut self, b: u8)
        ensures { self.new ≡ pushed self.old b }
    {
        let at = self.len;
        if at < Text::ROOM {
            self.bytes[at] = b;
            self.len = at + 1;
        }
    }

    pub fn push(mut self, b: u8) -> Self
        ensures { result ≡ pushed self b }
    {
        self.append(b);
        self
    }

    #[tactic(auto, unfolding(crate::specs::Text::puts))]
    pub fn put(mut self, s: &[u8]) -> Self
        ensures { result ≡ puts self s.now }
    {
        for &b in s {
            self.append(b);
        }
        self
    }

    // A number in decimal, digit by digit: a `write!` of it promises nothing where it fails, and no contract says that it doesn't.
    pub fn decimal(self, n: u64) -> Self
        ensures { result ≡ puts self (decimal_of n) }
    {
        if n < 10 {
            self.push(n as u8 + 48)
        } else {
            let t = self.decimal(n / 10);
            t.push((n % 10) as u8 + 48)
        }
    }

    // The last `count` digits of a number in hexadecimal, zeros in front too. No `write!`, as above.
    #[tactic(auto, using(crate::proofs::Puts::puts_last, crate::proofs::Puts::hex_more), unfolding(crate::specs::Text::puts, crate::specs::Text::hex_of))]
    pub fn hex(self, n: u32, count: u8) -> Self
        ensures { result ≡ puts self (hex_of count n) }
    {
        if count == 0 {
            self
        } else {
            self.hex(n / 16, count - 1).push(hex_digit((n % 16) as u8))
        }
    }

    pub fn as_bytes(&self) -> &[u8]
        ensures { result.now ≡ says self.now }
    {
        &self.bytes[..self.len.min(Text::ROOM)]
    }
}

// No digit of the library's: it gives small letters.
fn hex_digit(d: u8) -> u8
    requires { d < 16 }
    ensures { result ≡ hex_digit d }
{
    if d < 10 { b'0' + d } else { b'A' + d - 10 }
}
