// The test vector of a table that is not refused.
ghost use Rattle.std.specs.Prelude.{true, ◌≡◌, ◌<◌, ◌≤◌, length};
ghost use Rattle.ring.specs.Sums.{tab};
ghost use Rattle.tables.specs.Table.{is_table, table_word};

// Coefficient i of the n of the test vector's b: the entry nearest to place i, which is the first again, negated, within half a step of the end.
fn word_at(table: &[u32], n: usize, i: usize) -> u32
    requires { (is_table n (length table.now) ≡ true) × (n ≤ 1024) × (i < n) }
    ensures { result ≡ table_word n (length table.now) table.now i }
{
    let m = table.len();
    let j = (i * m + n / 2) / n;
    if j == m {
        ring::negated(table[0])
    } else {
        table[j]
    }
}

// Every coefficient of b.
fn put_words(table: &[u32], b: &mut [u32])
    requires { (is_table (length b.old) (length table.now) ≡ true) × (length b.old ≤ 1024) }
    ensures { b.new ≡ tab (length b.old) (table_word (length b.old) (length table.now) table.now) }
{
    let n = b.len();
    for (i, o) in b.iter_mut().enumerate() {
        *o = word_at(table, n, i);
    }
}

// The whole vector.
pub(crate) fn put_vector(table: &[u32], a: &mut [u32], b: &mut [u32])
    requires { (is_table (length b.old) (length table.now) ≡ true) × (length b.old ≤ 1024) }
    ensures a_after { a.new ≡ tab (length a.old) (λ i. 0) }
    ensures b_after { b.new ≡ tab (length b.old) (table_word (length b.old) (length table.now) table.now) }
{
    words::fill(0, a);
    put_words(table, b);
}
