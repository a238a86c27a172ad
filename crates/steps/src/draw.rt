// The generator, xorshift on 64 bits.
ghost use Rattle.std.specs.Prelude.{◌≡◌, ◌%◌, ◌≤◌, ◌<◌, Some, length, slice_get};

// Its state is the number drawn last.
#[derive(Clone, Copy)]
pub struct Draw {
    pub last: u64,
}

impl Draw {
    // The next number.
    pub fn next(&mut self) -> u64
        ensures { result ≡ self.new.last }
    {
        let x = self.last;
        let y = x ^ (x << 13);
        let z = y ^ (y >> 7);
        self.last = z ^ (z << 17);
        self.last
    }

    // Which of so many things the next number picks.
    pub fn pick(&mut self, count: u64) -> u64
        requires { 1 ≤ count }
        ensures { (result ≡ self.new.last % count) × (result < count) }
    {
        self.next() % count
    }

    // The one of these that the next number picks.
    pub fn pick_of<T: Copy>(&mut self, things: &[T]) -> T
        requires { 1 ≤ length things.now }
        ensures { slice_get things.now (self.new.last % length things.now) ≡ Some result }
    {
        things[self.pick(things.len() as u64) as usize]
    }

    // Fills a string with bytes drawn in order.
    pub fn fill(&mut self, string: &mut [u8]) {
        for byte in string.iter_mut() {
            *byte = (self.next() & 0xff) as u8;
        }
    }
}
