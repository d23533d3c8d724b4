// Words that change places: indices in bit-reversed order, rows and columns.
ghost use Rattle.std.specs.Prelude.{◌≡◌, ◌+◌, ◌*◌, ◌^◌, ◌<◌, ◌≤◌, length};
ghost use Rattle.passes.specs.Order.{reversed, across, Permuted, Exchanged};

// The index k with its bits in reverse order.
pub fn reverse(k: usize, halvings: u32) -> usize
    requires { (k < 2 ^ halvings) × (halvings ≤ 6) }
    ensures { result ≡ reversed halvings k }
{
    let mut r = 0;
    let mut q = k;
    for _ in 0..halvings {
        r = 2 * r + q % 2;
        q /= 2;
    }
    r
}

// Each word goes to the place whose index has its bits in reverse order.
pub fn reorder(words: &mut [u64], halvings: u32)
    requires { (length words.old ≡ 2 ^ halvings) × (halvings ≤ 6) }
    ensures { Permuted (reversed halvings) words.old words.new }
{
    for k in 0..words.len() {
        let p = reverse(k, halvings);
        if k < p {
            words.swap(k, p);
        }
    }
}

// Row r and column r of n rows of n words change places, from the diagonal on.
fn swap_row(words: &mut [u64], n: usize, r: usize)
    requires { (length words.old ≡ n * n) × (r < n) }
    ensures { Exchanged (across n) (r * n) ((r + 1) * n) words.old words.new }
{
    for k in r + 1..n {
        words.swap(r * n + k, k * n + r);
    }
}

// Rows and columns change places.
pub fn transpose(words: &mut [u64], n: usize)
    requires { length words.old ≡ n * n }
    ensures { Permuted (across n) words.old words.new }
{
    for r in 0..n {
        swap_row(words, n, r);
    }
}
