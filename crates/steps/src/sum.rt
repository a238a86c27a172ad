// Adler-32.

// The sum of the bytes of a string.
pub fn adler(string: &[u8]) -> u64 {
    let mut a = 1;
    let mut b = 0;
    for byte in string {
        a = (a + u64::from(*byte)) % 65521;
        b = (b + a) % 65521;
    }
    b * 65536 + a
}
