// The generator: another program follows it draw by draw.
ghost use Rattle.std.specs.Prelude.{◌≡◌, ◌<◌, max};
ghost use Rattle.sums.specs.Draws.{start_of, next_of, below};

const MULTIPLIER: usize = 48_271;

const MODULUS: usize = 2_147_483_647;

// What is drawn follows from one number.
#[derive(Clone, Copy)]
pub struct Draws {
    pub x: usize,
}

impl Draws {
    // Where a part starts.
    pub fn start(seed: usize, part: usize) -> Draws
        ensures { result.x ≡ start_of seed part }
    {
        let x = (seed % 4_294_967_296 * 5 + part % 6) % (MODULUS - 1) + 1;
        Draws { x }
    }

    // The next number, taken below n; 0 where n is 0.
    pub fn below(&mut self, n: usize) -> usize
        ensures next { self.new.x ≡ next_of self.old.x }
        ensures drawn { result ≡ below (next_of self.old.x) n }
        ensures under { result < max n 1 }
        ensures small { result < 2147483647 }
    {
        self.x = self.x % MODULUS * MULTIPLIER % MODULUS;
        if n == 0 {
            return 0;
        }
        self.x % n
    }
}
