//! Text written into lent bytes, one part after the other.
#![tactic(auto)]

ghost use Rattle.std.specs.Prelude.{◌≡◌, ◌+◌, ◌≤◌, length, decimal};
ghost use Rattle.text.specs.Over.{over};

// No `fmt::Write`: a formatter may fail, and here each caller has shown that there is room.
/// Writes texts into lent bytes, one after the other.
#[derive(Drop)]
pub struct Writer<'a> {
    out: &'a mut [u8],
    at: usize,
}

impl<'a> Writer<'a> {
    ghost use Rattle.text.specs.Over.{numbers_text};
    ghost use Rattle.text.specs.Writers.{Wrote, room_of};

    /// A writer that begins at the first byte.
    pub fn new(out: &'a mut [u8]) -> Writer<'a>
        ensures memory { result.out.ghost_name ≡ out.entry.ghost_name }
        ensures bytes { result.out.now ≡ out.old }
        ensures place { result.at ≡ 0 }
    {
        Writer::starting_at(out, 0)
    }

    /// A writer that begins at a place.
    pub fn starting_at(out: &'a mut [u8], place: usize) -> Writer<'a>
        ensures memory { result.out.ghost_name ≡ out.entry.ghost_name }
        ensures bytes { result.out.now ≡ out.old }
        ensures place { result.at ≡ place }
    {
        Writer { out, at: place }
    }

    /// The number of bytes up to the writer's place.
    pub fn place(&self) -> usize
        ensures { result ≡ self.now.at }
    {
        self.at
    }

    /// Writes some bytes. The caller has shown that they fit.
    pub fn put(&mut self, bytes: &[u8])
        requires { self.old.at + length bytes.now ≤ room_of self.old }
        ensures { Wrote self.old self.new bytes.now }
    {
        let Writer { out, at } = self;
        let end = *at + bytes.len();
        out[*at..end].copy_from_slice(bytes);
        *at = end;
    }

    /// Writes a number in decimal digits. The caller has shown that they fit.
    pub fn put_number(&mut self, number: usize)
        requires { self.old.at + length (decimal number) ≤ room_of self.old }
        ensures { Wrote self.old self.new (decimal number) }
    {
        let Writer { out, at } = self;
        *at = put_digits(number, out, *at);
    }

    /// Writes numbers in decimal digits, with a byte between two of them. The caller has shown that they fit.
    pub fn put_numbers(&mut self, numbers: &[usize], gap: u8)
        requires { self.old.at + length (numbers_text gap numbers.now) ≤ room_of self.old }
        ensures { Wrote self.old self.new (numbers_text gap numbers.now) }
    {
        let [first, rest @ ..] = numbers else {
            return;
        };
        self.put_number(*first);
        for number in rest {
            self.put(&[gap]);
            self.put_number(*number);
        }
    }
}

// The place is handed on by value: kept in a writer, each digit would wait for it to be stored and read again.
// Writes a number in decimal digits at a place, and answers the place behind them.
fn put_digits(number: usize, out: &mut [u8], at: usize) -> usize
    requires { at + length (decimal number) ≤ length out.old }
    ensures ends { result ≡ at + length (decimal number) }
    ensures wrote { out.new ≡ over out.old at (decimal number) }
{
    if number < 10 {
        out[at] = b'0' + number as u8;
        return at + 1;
    }
    let last = put_digits(number / 10, out, at);
    out[last] = b'0' + (number % 10) as u8;
    last + 1
}
