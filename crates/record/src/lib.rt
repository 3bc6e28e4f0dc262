// The reader: a record is refused, with a number from 1 to 7, exactly when document 01 says. A section is the part of the record's bytes from its start to its end.
#![tactic(auto)]

ghost use Rattle.std.specs.Prelude.{◌≡◌, ◌+◌, ◌<◌, ◌≤◌, length};
ghost use Rattle.model.specs.Search.{any};
ghost use Rattle.model.specs.Answers.{checked};
ghost use Rattle.model.specs.Layout.{two, past, section, K, header};
ghost use Rattle.record.specs.Sections.{bounded};
ghost use Rattle.model.specs.Refused.{unmarked, stray, out_of_range, cut_at, rule5, rule6, rule7, refusal};

use answers::numbered;
use model::{
    ACTION_BYTES, Answer, COUNT_BYTES, HEADER_BYTES, Header, MAX_ACTIONS, MAX_JUSTIFYING,
    MAX_MONITORS, MAX_THREADS, MAX_VARIABLES,
};

// Where a section stands in the record's bytes.
#[derive(Clone, Copy)]
pub struct Span {
    pub at: usize,
    pub end: usize,
}

// The count of the section that starts at p.
fn count(r: &[u8], p: usize) -> u16
    ensures { result ≡ two r.now p }
{
    r.get(p..).map_or(0, fields::size)
}

// The byte past the section that starts at p.
fn past(r: &[u8], p: usize) -> usize
    requires { p < 9223372036854775808 }
    ensures { result ≡ past r.now p }
{
    p + (COUNT_BYTES + ACTION_BYTES * count(r, p) as usize)
}

// Where section s stands in the bytes, as far as the record has it.
pub fn bounds(r: &[u8], s: u8) -> Span
    ensures { result ≡ bounded r.now s }
{
    let mut p = HEADER_BYTES;
    for _ in 0..s {
        p = past(r, p);
    }
    Span {
        at: p.min(r.len()),
        end: past(r, p).min(r.len()),
    }
}

pub fn section(r: &[u8], s: u8) -> &[u8]
    ensures { result.now ≡ section r.now s }
{
    let Span { at, end } = bounds(r, s);
    &r[at..end]
}

// Number 1.
fn unmarked(r: &[u8]) -> bool
    ensures { result ≡ unmarked r.now }
{
    r.len() < HEADER_BYTES || !r.starts_with(&fields::MARK)
}

// Bits from V up have to be clear.
fn strays(h: Header) -> bool
    ensures { result ≡ any 64 (stray h) }
{
    (h.variables as usize) < MAX_VARIABLES && h.map >> h.variables != 0
}

// Number 3.
#[tactic(auto, using(std::proofs::lemmas::Bool::Decides::nat_tests), unfolding(model::specs::Refused::out_of_range))]
fn out_of_range(h: Header) -> bool
    ensures { result ≡ out_of_range h }
{
    h.threads < 1
        || h.threads as usize > MAX_THREADS
        || h.variables as usize > MAX_VARIABLES
        || h.monitors as usize > MAX_MONITORS
        || h.justifying as usize > MAX_JUSTIFYING
        || strays(h)
}

// Number 5 for the section that starts at p.
#[tactic(auto, using(std::proofs::lemmas::Bool::Decides::nat_tests), unfolding(model::specs::Refused::cut_at))]
fn cut(r: &[u8], p: usize) -> bool
    requires { p ≤ length r.now }
    ensures { result ≡ cut_at r.now p }
{
    r.len() - p < COUNT_BYTES || count(r, p) as usize > MAX_ACTIONS || r.len() < past(r, p)
}

// Number 5: each section in its turn, then the bytes left.
fn lengths(r: &[u8]) -> Result<(), Answer>
    requires { (17 ≤ length r.now) × (K r.now ≤ 8) }
    ensures { result ≡ checked (rule5 r.now) }
{
    let last = fields::justifying(r);
    let mut p = HEADER_BYTES;
    for s in 0..last + 1 {
        if cut(r, p) {
            return Err(numbered(5, s));
        }
        p = past(r, p);
    }
    if p < r.len() {
        return Err(numbered(5, last));
    }
    Ok(())
}

// Number 6: every section as its own part of the record.
fn misfielded(r: &[u8], h: Header) -> Result<(), Answer>
    requires { (h ≡ header r.now) × (K r.now ≤ 8) }
    ensures { result ≡ checked (rule6 r.now) }
{
    (0..h.justifying + 1).try_for_each(|s| section::misfielded(h, s, section(r, s)))
}

// Number 7.
fn repeated(r: &[u8], h: Header) -> Result<(), Answer>
    requires { (h ≡ header r.now) × (K r.now ≤ 8) }
    ensures { result ≡ checked (rule7 r.now) }
{
    (0..h.justifying + 1).try_for_each(|s| section::repeated(s, section(r, s)))
}

// Numbers 1 to 7, where the question wants `need` words and `lent` are there.
pub fn refusal(r: &[u8], need: usize, lent: usize) -> Result<(), Answer>
    ensures { result ≡ checked (refusal r.now need lent) }
{
    if unmarked(r) {
        return Err(numbered(1, 0));
    }
    if fields::version(r) != 1 {
        return Err(numbered(2, 0));
    }
    let h = fields::header(r);
    if out_of_range(h) {
        return Err(numbered(3, 0));
    }
    if lent < need {
        return Err(numbered(4, 0));
    }
    lengths(r)?;
    misfielded(r, h)?;
    repeated(r, h)
}
