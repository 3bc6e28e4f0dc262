// Rows of bits in lent words: row a is ROW_WORDS words, and bit b mod 64 of its word b div 64 stands for the pair (a, b).
#![tactic(auto)]

ghost use Rattle.std.specs.Prelude.{◌≡◌, ◌+◌, ◌*◌, ◌<◌, ◌≤◌, length, replicate, true};
ghost use Rattle.model.specs.Limits.{row_words};
ghost use Rattle.model.specs.WorkArea.{shown};
ghost use Rattle.rows.specs.Part.{cell, marked, joined, rounded};
ghost use Rattle.rows.specs.Rounds.{Joined, Row};

use model::ROW_WORDS;

// Whether the bit for (a, b) is set; it is not where the words have no such bit.
#[tactic(auto, unfolding(model::specs::WorkArea::bit))]
pub fn get(part: &[u64], a: u16, b: u16) -> bool
    ensures { result ≡ cell part.now a b }
{
    let b = b as usize;
    b < 64 * ROW_WORDS
        && part
            .get(ROW_WORDS * a as usize + b / 64)
            .is_some_and(|word| (word >> (b % 64)) % 2 == 1)
}

// Whether a happens before b, as the words of a part show it: what is asked of happens-before is asked here, and here alone it is known which of the two has the row.
pub fn before(part: &[u64], a: u16, b: u16) -> bool
    ensures { result ≡ shown part.now a b }
{
    get(part, a, b)
}

pub fn clear(part: &mut [u64])
    ensures { part.new ≡ replicate (length part.old) 0 }
{
    part.fill(0);
}

// Sets the bit for (a, b), where the words have it.
pub fn set(part: &mut [u64], a: u16, b: u16)
    ensures { part.new ≡ marked part.old a b }
{
    let b = b as usize;
    let i = ROW_WORDS * a as usize + b / 64;
    if b < 64 * ROW_WORDS && i < part.len() {
        part[i] |= 1 << (b % 64);
    }
}

// Row `to` takes in row `from` of other words, a word at a time.
fn take_in(part: &mut [u64], to: u16, other: &[u64], from: u16)
    requires row_words_in_bounds { row_words * to + row_words ≤ length part.old }
    requires row_words_in_bounds_2 { row_words * from + row_words ≤ length other.now }
    ensures { Joined row_words part.old part.new to other.now from true row_words }
{
    for j in 0..ROW_WORDS {
        part[ROW_WORDS * to as usize + j] |= other[ROW_WORDS * from as usize + j];
    }
}

// Row `from` of other words is or-ed into row `to`, where the words have these rows.
pub fn join(part: &mut [u64], to: u16, other: &[u64], from: u16)
    ensures { part.new ≡ joined part.old to other.now from }
{
    if ROW_WORDS * to as usize + ROW_WORDS > part.len() {
        return;
    }
    if ROW_WORDS * from as usize + ROW_WORDS > other.len() {
        return;
    }
    take_in(part, to, other, from);
}

// Row k as it stands.
fn copied(part: &[u64], k: u16) -> [u64; ROW_WORDS]
    requires { row_words * k + row_words ≤ length part.now }
    ensures { Row row_words part.now k result }
{
    let from = ROW_WORDS * k as usize;
    let mut r = [0u64; ROW_WORDS];
    r.copy_from_slice(&part[from..from + ROW_WORDS]);
    r
}

// Row a takes in row k, which is `taken`, where it has bit k.
fn follow(part: &mut [u64], a: u16, k: u16, taken: &[u64; ROW_WORDS])
    requires row_words_in_bounds { row_words * a + row_words ≤ length part.old }
    requires bit_in_row { k < 64 * row_words }
    ensures { Joined row_words part.old part.new a taken.now 0 (cell part.old a k) row_words }
{
    let word = part[ROW_WORDS * a as usize + k as usize / 64];
    if (word >> (k % 64)) % 2 == 1 {
        take_in(part, a, taken, 0);
    }
}

// Round k of closing in place: each of the first n rows that has bit k takes in row k as it stood. No other row decides on it, so no second copy of the rows is needed.
pub fn round(part: &mut [u64], n: u16, k: u16)
    ensures { part.new ≡ rounded part.old n k }
{
    if k >= n {
        return;
    }
    if n as usize > 64 * ROW_WORDS {
        return;
    }
    if ROW_WORDS * n as usize > part.len() {
        return;
    }
    let taken = copied(part, k);
    for a in 0..n {
        follow(part, a, k, &taken);
    }
}
