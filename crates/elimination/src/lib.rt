// Elimination on a matrix of m rows of n elements of F, row after row: its cleared form and its rank.
#![tactic(auto)]

ghost use Rattle.std.specs.Prelude.{◌≡◌, ◌&&◌, ◌+◌, ◌-◌, ◌*◌, ◌/◌, ◌%◌, ◌^◌, ◌≤◌, ◌<◌, ltb, length, get_or};
ghost use Rattle.std.specs.Int.Bits.{bit_xor, bit_and};
ghost use Rattle.field.specs.Ring.{Ring};
ghost use Rattle.field.specs.Level.{level_at, F};
ghost use Rattle.field.specs.Word.{small, word, Words};
ghost use Rattle.galois.specs.Inverse.{inverse};
ghost use Rattle.elimination.specs.Rank.{cleared_words, rank_of, short};
ghost use Rattle.elimination.specs.Steps.{Row, Grid, entry_at, times_word, cleared_word, unused};

use field::{Level, small};

// The largest n of any level: the words of a row that is held apart, and a mark for each row.
const MOST: usize = 128;

// The largest m n of the first level: the room in which the rows of a key are tested.
pub const MATRIX: usize = 4032;

// The inverse of an element of F that is not zero: its power 2^width - 2, the square of its power 2^(width - 1) - 1.
pub fn inverse(a: u16, level: usize) -> u16
    requires { (0 < a) × (a ≤ (level_at level).limit) }
    ensures power { result ≡ word (level_at level) (inverse (level_at level) (small (level_at level) a)) }
    ensures inverts { (F (level_at level)).mul (small (level_at level) a) (small (level_at level) result) ≡ (F (level_at level)).one }
{
    let last = Level::of(level).width - 1;
    let mut p: u16 = 1;
    for k in 0..last {
        let square = small::product(p, p, level);
        p = small::product(a, square, level);
    }
    small::product(p, p, level)
}

// Adds the multiple to each word of the part where the row's word has digit k. After a `zip` with `iter_mut` a proof knows no word of the part.
fn add_digit(part: &mut [u16], row: &[u16], k: usize, multiple: u16)
    requires { (length part.old ≡ length row.now) × (k < 16) }
    ensures { Row (length part.old) part.new (λ j. bit_xor (get_or part.old j 0) (bit_and multiple (get_or row.now j 0 / 2 ^ k % 2 * 65535))) }
{
    for (j, x) in part.iter_mut().enumerate() {
        *x ^= multiple & ((row[j] >> k) % 2 * 0xffff);
    }
}

// Adds f times the row to the part, by the multiples f z^k for the digits of the row's words.
fn add_multiple(part: &mut [u16], row: &[u16], f: u16, level: usize)
    requires { (length part.old ≡ length row.now) × Words (level_at level) part.old × Words (level_at level) row.now × (f < 2 ^ (level_at level).width) }
    ensures { Row (length part.old) part.new (λ j. bit_xor (get_or part.old j 0) (times_word (level_at level) f (get_or row.now j 0))) }
{
    let width = Level::of(level).width;
    let mut multiple = f;
    for k in 0..width {
        add_digit(part, row, k, multiple);
        multiple = small::times_z(multiple, level);
    }
}

// Clears column c in the unused rows of the rest of a matrix, the rows from `from` on. row holds the words of the row taken from column c on,
// v is the inverse of the first of them. After `chunks_exact_mut` a proof knows no word of the rest.
fn clear(
    rest: &mut [u16],
    used: &[u8],
    row: &[u16],
    from: usize,
    rows: usize,
    n: usize,
    c: usize,
    v: u16,
    level: usize,
)
    requires rest_len { (length rest.old ≡ rows * n) × (rows ≤ 128) × (n ≤ 128) × (from + rows ≤ length used.now) × (c < n) × (c + length row.now ≡ n) }
    requires words { Words (level_at level) rest.old × Words (level_at level) row.now × (v < 2 ^ (level_at level).width) }
    ensures { Grid rows n rest.new (λ i j. cleared_word (level_at level) n c v (λ j. get_or row.now (j - c) 0) rest.old (unused used.now (from + i)) i j) }
{
    for k in 0..rows {
        if used[from + k] == 0 {
            let start = k * n + c;
            let end = k * n + n;
            let f = small::product(rest[start], v, level);
            add_multiple(&mut rest[start..end], row, f, level);
        }
    }
}

// Clears column c in the unused rows below row p, by adding multiples of that row from column c on.
fn clear_below(
    matrix: &mut [u16],
    used: &[u8],
    p: usize,
    n: usize,
    m: usize,
    c: usize,
    level: usize,
)
    requires matrix_len { (length matrix.old ≡ m * n) × (m ≤ 128) × (n ≤ 128) × (m ≤ length used.now) × (c < n) × (p < m) }
    requires words { Words (level_at level) matrix.old × (0 < entry_at n matrix.old p c) }
    ensures { Grid m n matrix.new (λ i j. cleared_word (level_at level) n c (word (level_at level) (inverse (level_at level) (small (level_at level) (entry_at n matrix.old p c)))) (entry_at n matrix.old p) matrix.old (ltb p i && unused used.now i) i j) }
{
    let start = p * n;
    let mut row = [0u16; MOST];
    row[c..n].copy_from_slice(&matrix[start + c..start + n]);
    let v = inverse(row[c], level);
    let rest = start + n;
    clear(
        &mut matrix[rest..],
        used,
        &row[c..n],
        p + 1,
        m - p - 1,
        n,
        c,
        v,
        level,
    );
}

// The rank; the matrix then holds the cleared form.
pub fn eliminate(matrix: &mut [u16], n: usize, m: usize, level: usize) -> usize
    requires { (length matrix.old ≡ m * n) × (m ≤ n) × (n ≤ (level_at level).most) × Words (level_at level) matrix.old }
    ensures rank { result ≡ rank_of (level_at level) n m matrix.old }
    ensures cleared { matrix.new ≡ cleared_words (level_at level) n m matrix.old }
{
    let mut used = [0u8; MOST];
    let mut rank: usize = 0;
    'columns: for c in 0..n {
        let mut r: usize = 0;
        // The form that docs/DECISIONS.md names: a loop that yields the row by its break.
        let p = loop {
            if r == m {
                continue 'columns;
            }
            if used[r] == 0 {
                if matrix[r * n + c] != 0 {
                    break r;
                }
            }
            r += 1;
        };
        clear_below(matrix, &used, p, n, m, c, level);
        used[p] = 1;
        rank += 1;
    }
    rank
}

// The rank of H, found in a matrix as long, which then holds the cleared form.
pub fn rank(h: &[u16], matrix: &mut [u16], n: usize, m: usize, level: usize) -> usize
    requires { (length h.now ≡ m * n) × (length matrix.old ≡ length h.now) × (m ≤ n) × (n ≤ (level_at level).most) × Words (level_at level) h.now }
    ensures rank { result ≡ rank_of (level_at level) n m h.now }
    ensures cleared { matrix.new ≡ cleared_words (level_at level) n m h.now }
{
    // A loop, as `copy_from_slice` would make the library for C need memmove.
    for (i, &x) in h.iter().enumerate() {
        matrix[i] = x;
    }
    eliminate(matrix, n, m, level)
}

// Whether the rank of H is below m, found in memory of its own.
pub fn short(h: &[u16], n: usize, m: usize, level: usize) -> bool
    requires { (length h.now ≡ m * n) × (m * n ≤ 4032) × (m ≤ n) × (n ≤ (level_at level).most) × Words (level_at level) h.now }
    ensures { result ≡ short (level_at level) n m h.now }
{
    let mut matrix = [0u16; MATRIX];
    rank(h, &mut matrix[..h.len()], n, m, level) < m
}
