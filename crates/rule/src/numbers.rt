//! The numbers of constants.
ghost use Rattle.std.specs.Prelude.{◌≡◌, ◌+◌, ◌^◌, ◌<◌, ◌&&◌, length, nat_le};
ghost use Rattle.std.specs.Str.Parse.{AllDigits};
ghost use Rattle.rule.specs.Numbers.{NumberRead};

use super::refusal::Refusal;

// The most digits that a constant has.
const MOST_DIGITS: usize = 10;

// The largest number that a constant writes.
const LARGEST: u64 = 4294967295;

// 64 bits hold each number before it is tested, so that one test serves the digits and the number.
// Whether a constant of so many digits and that number is lawful.
fn is_lawful(count: usize, number: u64) -> bool
    ensures { result ≡ (nat_le count 10 && nat_le number 4294967295) }
{
    count <= MOST_DIGITS && number <= LARGEST
}

// No `from_str_radix`, which does not say at which digit a number gets too long or too large.
// The number of a constant whose digits begin at a place. It is refused at the digit that makes it too long or too large.
pub(super) fn number_of(digits: &[u8], at: usize) -> Result<u32, Refusal>
    requires { (AllDigits 10 digits.now) × (at + length digits.now < 2 ^ 64) }
    ensures { NumberRead digits.now at result }
{
    let mut number = 0;
    for (i, digit) in digits.iter().enumerate() {
        let longer = u64::from(number) * 10 + u64::from(*digit - b'0');
        if !is_lawful(i + 1, longer) {
            return Err(Refusal { at: at + i });
        }
        number = longer as u32;
    }
    Ok(number)
}
