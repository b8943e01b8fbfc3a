// The badges that at least a quorum of logs' days have. The days are parts of the work words, of one size and one after the other. They are sorted bit by
// bit, ones first, by insertion; part j then has the badges that at least j + 1 of them had. Each loop takes whole parts, so that a compiler can take
// several words at once. (The words are one slice with numbers beside it: a struct of parts would have to lend two of them at once, and is no plainer.)
ghost use Rattle.std.specs.Prelude.{List, ◌≡◌, ℕ, ◌+◌, ◌*◌, ◌≤◌, length, drop};
ghost use Rattle.receivers.specs.Counting.{Exchanged, Sorted, Copied, Combined};

// The compare-exchange of a sort, for all bits of two parts: the first gets the larger of two bits, so the union of the sets, and the second the smaller,
// so the intersection. (By index: after a loop over two `iter_mut` at once a proof knows nothing of what they wrote.)
fn compare_exchange(work: &mut [u64], first: usize, second: usize, size: usize)
    requires { (first + size ≤ second) × (second + size ≤ length work.old) }
    ensures { Exchanged first second size work.old work.new }
{
    for i in 0..size {
        let a = first + i;
        let b = second + i;
        let one = work[a];
        let other = work[b];
        work[a] = one | other;
        work[b] = one & other;
    }
}

// Inserts part k among those before it.
fn insert(work: &mut [u64], k: usize, size: usize)
    requires { k * size + size ≤ length work.old }
    ensures { (lent : List ℕ) → Sorted k size lent work.old → Sorted (k + 1) size lent work.new }
{
    for j in 0..k {
        compare_exchange(work, j * size, k * size, size);
    }
}

// Sorts the first m parts.
fn sort(work: &mut [u64], m: usize, size: usize)
    requires { m * size ≤ length work.old }
    ensures { Sorted m size work.old work.new }
{
    for k in 0..m {
        insert(work, k, size);
    }
}

// Copies the words of one part, by index: of so many words the library's copy is a call that takes a step for each byte.
fn copy(work: &[u64], from: usize, size: usize, words: &mut [u64])
    requires { (from + size ≤ length work.now) × (size ≤ length words.old) }
    ensures { Copied from size work.now words.old words.new }
{
    for i in 0..size {
        words[i] = work[from + i];
    }
}

// Sets the first words to the quorum of m logs' days, and leaves these sorted.
pub(crate) fn combine(work: &mut [u64], m: usize, size: usize, quorum: usize, words: &mut [u64])
    requires { (1 ≤ quorum) × (quorum ≤ m) × (m * size ≤ length work.old) × (size ≤ length words.old) }
    ensures counts { Combined quorum m size work.old words.old words.new }
    ensures keeps { drop (m * size) work.new ≡ drop (m * size) work.old }
{
    sort(work, m, size);
    copy(work, (quorum - 1) * size, size, words);
}
