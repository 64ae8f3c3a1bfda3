// Sums and casts that no number breaks, for numbers of any size.
ghost use Rattle.std.specs.Prelude.{◌≡◌, ◌+◌, ◌*◌, ◌%◌};
ghost use Rattle.sums.specs.Draws.{below};

const TOP: usize = 4_294_967_296;

pub fn plus(a: usize, b: usize) -> usize
    ensures { result ≡ a % 4294967296 + b % 4294967296 }
{
    a % TOP + b % TOP
}

pub fn rest(a: usize, n: usize) -> usize
    ensures { result ≡ below a n }
{
    if n == 0 {
        return 0;
    }
    a % n
}

pub fn double(a: usize) -> usize
    ensures { result ≡ a % 4294967296 * 2 }
{
    a % TOP * 2
}

pub fn narrow(a: usize) -> u32
    ensures { result ≡ a % 4294967296 }
{
    (a % TOP) as u32
}
