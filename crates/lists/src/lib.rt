// Copies of byte slices, numbers of three bytes, and in specs/ the general laws of lists and tests that every other crate cites.
#![tactic(auto)]

ghost use Rattle.std.specs.Prelude.{◌≡◌, [], ◌∷◌, ◌+◌, ◌*◌, ◌/◌, ◌%◌, ◌≤◌, ◌<◌, length, get_or};
ghost use Rattle.lists.specs.Splice.{splice, part, copies};

// Copies all of src into dst, from `at` on. A loop, and not the library's copy: for that the archive would call the C library's.
pub fn put(dst: &mut [u8], at: usize, src: &[u8])
    requires { at + length src.now ≤ length dst.old }
    ensures { dst.new ≡ splice dst.old at src.now }
{
    for i in 0..src.len() {
        dst[at + i] = src[i];
    }
}

// Fills dst from src, from `at` on.
pub fn get(src: &[u8], at: usize, dst: &mut [u8])
    requires { at + length dst.old ≤ length src.now }
    ensures { dst.new ≡ part src.now at (length dst.old) }
{
    let end = at + dst.len();
    put(dst, 0, &src[at..end]);
}

// Sets n bytes of dst, from `at` on, to v; a loop for the same reason.
pub fn fill(dst: &mut [u8], at: usize, n: usize, v: u8)
    requires { at + n ≤ length dst.old }
    ensures { dst.new ≡ splice dst.old at (copies n v) }
{
    for i in 0..n {
        dst[at + i] = v;
    }
}

// The number that three bytes make from `at` on, the first lowest.
pub fn three(src: &[u8], at: usize) -> usize
    requires { at + 3 ≤ length src.now }
    ensures { (result ≡ get_or src.now at 0 + 256 * get_or src.now (at + 1) 0 + 65536 * get_or src.now (at + 2) 0) × (result < 16777216) }
{
    usize::from(src[at]) + 256 * usize::from(src[at + 1]) + 65536 * usize::from(src[at + 2])
}

// Writes a number in three bytes from `at` on, the lowest first.
pub fn put_three(dst: &mut [u8], at: usize, n: usize)
    requires { at + 3 ≤ length dst.old }
    ensures { dst.new ≡ splice dst.old at (n % 256 ∷ (n / 256 % 256 ∷ (n / 65536 % 256 ∷ []))) }
{
    // The numbers fit: the casts lose nothing.
    let bytes = [
        (n % 256) as u8,
        (n / 256 % 256) as u8,
        (n / 65536 % 256) as u8,
    ];
    put(dst, at, &bytes);
}
