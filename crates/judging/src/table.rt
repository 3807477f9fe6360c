// Tables of numbers that are filled from the front.

ghost use Rattle.std.specs.Prelude.{◌≡◌, ℕ, ◌≤◌, ◌<◌};
ghost use Rattle.judging.specs.Sets.{table_of};

// N entries: f's values at 0 to n - 1, then zeros.
pub(crate) fn table<const N: usize, F: Fn(usize) -> u16>(n: usize, f: F) -> [u16; N]
    requires room { n ≤ N }
    requires callable { (i : ℕ) → i < n → F.pre f i }
    ensures { (of : ℕ → ℕ) → ((i r : ℕ) → i < n → F.post f i r → r ≡ of i) → result ≡ table_of of n N }
{
    let mut t = [0u16; N];
    for i in 0..n {
        t[i] = f(i);
    }
    t
}
