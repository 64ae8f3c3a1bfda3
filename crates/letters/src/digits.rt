// The last digit of a number.
ghost use Rattle.std.specs.Prelude.{◌≡◌};
ghost use Rattle.letters.specs.Digits.{last_digit};

pub fn digit(n: usize) -> u8
    ensures { result ≡ last_digit n }
{
    b'0' + (n % 10) as u8
}
