// Any run of words: one more, one less, the place of a key. Each word is moved or compared once.
// The runs of a page are short, so a wrongly foretold jump weighs more than the words that one could spare.
ghost use Rattle.std.specs.Prelude.{◌≡◌, true, ◌++◌, suc, ◌+◌, ◌-◌, ◌≤◌, ◌<◌, length, take, drop};
ghost use Rattle.model.specs.Basics.{ins, del};
ghost use Rattle.page.specs.Runs.{part, Changed, leading, up_to};

// The words from `at` on move up by one, the last one is lost, and `v` stands at `at`. All words are moved, with no
// jump on the way: how many lie after the place can't be foreseen, and a jump foretold wrongly costs more than the
// rest.
pub fn push_in(s: &mut [u64], at: usize, v: u64)
    requires { at < length s.old }
    ensures { s.new ≡ ins at v (take (length s.old - 1) s.old) }
{
    for i in (1..s.len()).rev() {
        s[i] = s[i - ((at < i) as usize)];
    }
    s[at] = v;
}

// The words after `at` move down by one; the last place keeps its word. As in `push_in`, with no jump on the way.
pub fn pull_out(s: &mut [u64], at: usize)
    requires { at < length s.old }
    ensures { s.new ≡ del at s.old ++ drop (length s.old - 1) s.old }
{
    for i in 0..s.len() - 1 {
        s[i] = s[i + ((at <= i) as usize)];
    }
}

// How many of the first `n` words stand in front that are below `key` or, where `past`, at most `key`. All words are
// compared, with no jump on the way: where a key belongs can't be foreseen, and a jump foretold wrongly costs more than
// the rest of a page. The first word that fails is past the mask's trailing ones. `past` is a bit of each
// comparison: a closure in its place would say no more.
pub fn scan(s: &[u64], n: usize, key: u64, past: bool) -> usize
    requires { (n ≤ length s.now) × (length s.now < 64) }
    ensures { result ≡ leading (up_to key past) (take n s.now) }
{
    let mut mask: u64 = 0;
    for (i, word) in s.iter().enumerate() {
        let stands = (*word < key) | (past & (*word == key));
        mask |= (stands as u64) << i;
    }
    n.min(mask.trailing_ones() as usize)
}

// The same, up to `key`, step by step: faster where the way is that of the call before, as from next to next.
pub fn walk(s: &[u64], key: u64) -> usize
    ensures { result ≡ leading (up_to key true) s.now }
{
    for (i, word) in s.iter().enumerate() {
        if key < *word {
            return i;
        }
    }
    s.len()
}

// One more in the run of `n` words from `base` on.
pub fn push_at(s: &mut [u64], base: usize, n: usize, at: usize, v: u64)
    requires { (base + n < length s.old) × (at ≤ n) }
    ensures { Changed base (suc n) (ins at v (part base n s.old)) s.old s.new }
{
    push_in(&mut s[base..base + n + 1], at, v);
}

// One more behind the run of `n` words from `base` on.
pub fn put_at(s: &mut [u64], base: usize, n: usize, v: u64)
    requires { base + n < length s.old }
    ensures { Changed base (suc n) (ins n v (part base n s.old)) s.old s.new }
{
    s[base + n] = v;
}

// One less in the run of `n` words from `base` on: the word after the shorter run keeps what it had.
pub fn pull_at(s: &mut [u64], base: usize, n: usize, at: usize)
    requires { (base + n ≤ length s.old) × (at < n) }
    ensures { Changed base (n - 1) (del at (part base n s.old)) s.old s.new }
{
    pull_out(&mut s[base..base + n], at);
}
