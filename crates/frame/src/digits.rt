// Upper-case hexadecimal: digits read to a number, and a number written as digits. Promised: specs/Digits.antt.
// Digits are compared and counted with, and not looked up: a table, as an array, would be stored anew in each call.
ghost use Rattle.std.specs.Prelude.{◌≡◌, true, ◌+◌, ◌≤◌, ◌<◌, length, IfSome, is_some};
ghost use Rattle.frame.specs.Digits.{is_digit, are_digits, worth_of, number_of, field_of, digit_of, spelled_of};
ghost use Rattle.frame.specs.Over.{over};

#[tactic(auto, using(std::proofs::lemmas::Bool::Decides::nat_tests), unfolding(crate::specs::Digits::is_digit))]
fn is_digit(c: u8) -> bool
    ensures { result ≡ is_digit c }
{
    c.is_ascii_digit() || matches!(c, b'A'..=b'F')
}

// Every byte is looked at, also behind one that is no digit: such a loop takes many bytes at once.
pub fn are_digits(line: &[u8]) -> bool
    ensures { result ≡ are_digits line.now }
{
    let mut all = true;
    for &c in line {
        all &= is_digit(c);
    }
    all
}

// A letter is 64 above its place in the alphabet, and its worth 9 above that.
fn worth(c: u8) -> u64
    requires { is_digit c ≡ true }
    ensures { (result ≡ worth_of c) × (result < 16) }
{
    let byte = u64::from(c);
    byte % 16 + byte / 64 * 9
}

pub fn number(digits: &[u8]) -> u64
    requires { (length digits.now ≤ 16) × (are_digits digits.now ≡ true) }
    ensures { result ≡ number_of digits.now }
{
    let mut n: u64 = 0;
    for &c in digits {
        n = n * 16 + worth(c);
    }
    n
}

// A line that is known to be of digits alone, inside this crate. The public functions that ask for one (number, read_digits, cell_bits, read_cells;
// add_digits of crate page) take its bytes and the clause, as their contracts do not change: a caller proves it where it is, and makes no other value.
#[derive(Clone, Copy)]
pub(crate) struct Digits<'a> {
    pub(crate) line: &'a [u8],
    pub(crate) ghost digits: { are_digits line.now ≡ true },
}

impl<'a> Digits<'a> {
    // None where another byte stands in the line.
    pub(crate) fn of(line: &'a [u8]) -> Option<Digits<'a>>
        ensures some { is_some result ≡ are_digits line.now }
        ensures line { IfSome result (λ d. d.line.now ≡ line.now) }
    {
        if are_digits(line) {
            Some(Digits { line })
        } else {
            None
        }
    }

    // The number of the `width` digits from the place `at` on.
    pub(crate) fn field(&self, at: usize, width: usize) -> u64
        requires { (width ≤ 16) × (at + width ≤ length self.now.line.now) }
        ensures { result ≡ field_of at width self.now.line.now }
    {
        number(&self.line[at..at + width])
    }

    // The same of at most four digits.
    pub(crate) fn short(&self, at: usize, width: usize) -> u32
        requires { (width ≤ 4) × (at + width ≤ length self.now.line.now) }
        ensures { (result ≡ field_of at width self.now.line.now) × (result < 65536) }
    {
        self.field(at, width) as u32
    }
}

fn digit(d: u64) -> u8
    requires { d < 16 }
    ensures { result ≡ digit_of d }
{
    if d < 10 {
        return 48 + (d as u8);
    }
    55 + (d as u8)
}

// The last `width` digits of n, from the place `at` on. The buffer and the place go apart, here and in write_asking and write_cells: each promises
// `over at ..` of specs/Over.antt, which has a place and the whole buffer.
pub fn spell(n: u64, width: usize, out: &mut [u8], at: usize)
    requires { at + width ≤ length out.old }
    ensures { out.new ≡ over at (spelled_of width n) out.old }
{
    let mut rest = n;
    for i in (0..width).rev() {
        out[at + i] = digit(rest % 16);
        rest /= 16;
    }
}
