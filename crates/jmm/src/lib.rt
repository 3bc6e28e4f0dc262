// The library: the three questions about a record, and the host's two calls.
#![tactic(auto)]

ghost use Rattle.std.specs.Prelude.{◌≡◌, ◌+◌, ◌*◌, ◌≤◌, length, take, drop};
ghost use Rattle.model.specs.Limits.{part_words};
ghost use Rattle.model.specs.Answers.{checked, packed, up_to};
ghost use Rattle.model.specs.Layout.{K, section};
ghost use Rattle.model.specs.Relations.{hb};
ghost use Rattle.model.specs.Rules.{well_formed};
ghost use Rattle.model.specs.Justified.{committing};
ghost use Rattle.model.specs.WorkArea.{filled};
ghost use Rattle.model.specs.Questions.{judged, verdict, verdict_words, race, race_words, order_refusal, order, order_words, order_list};
ghost use Rattle.jmm.specs.Accepted.{Accepted, Filled};

use answers::{answered, numbered};
use model::{Answer, MAX_WORDS, PART_WORDS};
use record::{refusal, section};

// The words of part s.
fn part(work: &[u64], s: u8) -> &[u64]
    requires { part_words * s + part_words ≤ length work.now }
    ensures { result.now ≡ take part_words (drop (part_words * s) work.now) }
{
    let from = PART_WORDS * s as usize;
    &work[from..from + PART_WORDS]
}

// Fills the parts of the first `parts` sections.
fn fill_parts(record: &[u8], work: &mut [u64], parts: u8)
    requires { Accepted «record».now parts (length work.old) }
    ensures { work.new ≡ filled «record».now parts work.old }
{
    for s in 0..parts {
        let from = PART_WORDS * s as usize;
        hb::fill(section(record, s), &mut work[from..from + PART_WORDS]);
    }
}

// 11 to 18 on the first n sections.
fn sections(record: &[u8], work: &[u64], n: u8) -> Result<(), Answer>
    requires { Filled «record».now n work.now }
    ensures { result ≡ checked (up_to n (λ s. well_formed (hb (section «record».now s)) s (section «record».now s))) }
{
    (0..n).try_for_each(|s| rules::well_formed(section(record, s), part(work, s), s))
}

// 21 to 29 for i from 1 to k.
fn sequence(record: &[u8], work: &[u64], k: u8) -> Result<(), Answer>
    requires { Filled «record».now (k + 1) work.now }
    ensures { result ≡ checked (up_to k (λ j. committing (hb (section «record».now 0)) (hb (section «record».now (j + 1))) «record».now (j + 1))) }
{
    (0..k).try_for_each(|j| {
        let i = j + 1;
        justify::committing(record, part(work, 0), part(work, i), i)
    })
}

// An answer other than 0 is an error, here and below: 10 as well.
fn judged(record: &[u8], work: &[u64], k: u8) -> Result<(), Answer>
    requires k_value { k ≡ K «record».now }
    requires filled { Filled «record».now (k + 1) work.now }
    ensures { result ≡ checked (judged «record».now) }
{
    sections(record, work, k + 1)?;
    sequence(record, work, k)?;
    if k == 0 {
        return Err(numbered(10, 0));
    }
    Ok(())
}

fn in_verdict(record: &[u8], work: &mut [u64]) -> Result<(), Answer>
    ensures answer { result ≡ checked (verdict «record».now (length work.old)) }
    ensures words { work.new ≡ verdict_words «record».now work.old }
{
    let k = fields::justifying(record);
    refusal(record, PART_WORDS * (k as usize + 1), work.len())?;
    fill_parts(record, work, k + 1);
    judged(record, work, k)
}

// Is the execution well-formed, and justified by the committing sequence in the record?
pub fn verdict(record: &[u8], work: &mut [u64]) -> Answer
    ensures answer { result ≡ verdict «record».now (length work.old) }
    ensures words { work.new ≡ verdict_words «record».now work.old }
{
    answered(in_verdict(record, work))
}

fn in_race(record: &[u8], work: &mut [u64]) -> Result<(), Answer>
    ensures answer { result ≡ checked (race «record».now (length work.old)) }
    ensures words { work.new ≡ race_words «record».now work.old }
{
    refusal(record, PART_WORDS, work.len())?;
    fill_parts(record, work, 1);
    let x = section(record, 0);
    ordered::ordered(x, 0)?;
    rules::racing(x, part(work, 0))
}

// Does the execution have a race?
pub fn race(record: &[u8], work: &mut [u64]) -> Answer
    ensures answer { result ≡ race «record».now (length work.old) }
    ensures words { work.new ≡ race_words «record».now work.old }
{
    answered(in_race(record, work))
}

// 1 to 8, for `lent` words and a list of `room` entries.
fn order_refusal(record: &[u8], lent: usize, room: usize) -> Result<(), Answer>
    ensures { result ≡ checked (order_refusal «record».now lent room) }
{
    refusal(record, PART_WORDS, lent)?;
    if room < fields::size(section(record, 0)) as usize {
        return Err(numbered(8, 0));
    }
    Ok(())
}

fn in_order(record: &[u8], work: &mut [u64], list: &mut [u16]) -> Result<(), Answer>
    ensures answer { result ≡ checked (order «record».now (length work.old) (length list.old)) }
    ensures words { work.new ≡ order_words «record».now work.old (length list.old) }
    ensures positions { list.new ≡ order_list «record».now (length work.old) list.old }
{
    order_refusal(record, work.len(), list.len())?;
    fill_parts(record, work, 1);
    let x = section(record, 0);
    rules::well_formed(x, part(work, 0), 0)?;
    rules::racing(x, part(work, 0))?;
    serial::serial(x, list);
    Ok(())
}

// A one-at-a-time order of a race-free execution, into the first entries of the list.
pub fn order(record: &[u8], work: &mut [u64], list: &mut [u16]) -> Answer
    ensures answer { result ≡ order «record».now (length work.old) (length list.old) }
    ensures words { work.new ≡ order_words «record».now work.old (length list.old) }
    ensures positions { list.new ≡ order_list «record».now (length work.old) list.old }
{
    answered(in_order(record, work, list))
}

// The answer as one number: N + 2^8 S + 2^16 A + 2^32 B.
pub fn packed(r: Answer) -> u64
    ensures { result ≡ packed r }
{
    r.n as u64 + 256 * r.s as u64 + 65536 * r.a as u64 + 4294967296 * r.b as u64
}

// The host's two calls: the words are ours.
pub fn jxe_verdict(record: &[u8]) -> u64
    ensures { result ≡ packed (verdict «record».now 2304) }
{
    let mut work = [0u64; MAX_WORDS];
    packed(verdict(record, &mut work))
}

pub fn jxe_race(record: &[u8]) -> u64
    ensures { result ≡ packed (race «record».now 256) }
{
    let mut work = [0u64; PART_WORDS];
    packed(race(record, &mut work))
}
