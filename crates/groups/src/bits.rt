// Groups of seven bits, by shifts and masks; each function's contract is plain arithmetic, and nothing above sees a bit.
ghost use Rattle.std.specs.Prelude.{◌≡◌, ◌+◌, ◌*◌, ◌/◌, ◌%◌, ◌<◌, leb};
ghost use Rattle.model.specs.Limits.{group};

// The group that a byte holds.
pub(crate) fn low(b: u8) -> u32
    ensures { result ≡ b % group }
{
    u32::from(b & 0x7f)
}

// Whether another byte follows.
pub(crate) fn goes_on(b: u8) -> bool
    ensures { result ≡ leb group b }
{
    b & 0x80 != 0
}

// A low group below the higher ones.
pub(crate) fn join(high: u32, low: u32) -> u32
    requires { (high < group * group) × (low < group) }
    ensures { result ≡ high * group + low }
{
    high << 7 | low
}

// The lowest group as a last byte, and as one that another follows.
pub(crate) fn last(value: u32) -> u8
    ensures { result ≡ value % group }
{
    (value & 0x7f) as u8
}

pub(crate) fn more(value: u32) -> u8
    ensures { result ≡ value % group + group }
{
    ((value & 0x7f) | 0x80) as u8
}

// The groups above the lowest.
pub(crate) fn rest(value: u32) -> u32
    ensures { result ≡ value / group }
{
    value >> 7
}
