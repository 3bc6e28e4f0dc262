// Happens-before of a section in line: every edge goes to a later position, and so one sweep from the last action to the first closes it.
#![tactic(auto)]

ghost use Rattle.std.specs.Prelude.{◌≡◌, true, false, not, ◌<◌, replicate};
ghost use Rattle.model.specs.Limits.{max_actions, row_words};
ghost use Rattle.model.specs.Search.{any};
ghost use Rattle.rows.specs.Part.{marked};
ghost use Rattle.lined.specs.Line.{slot, broad, place_of, unfit, freely, late, lined, lined_part};

use fields::{kind, place, size, target, thread};
use model::{MAX_ACTIONS, PART_WORDS, ROW_WORDS};
use relations::{Object, given, taken};
use table::{row_of, sync};

// Threads and the numbers of objects below this have rows, and objects have them class by class.
const NUMBERS: u8 = 64;

const OBJECTS: usize = 384;

// The words of a row for each thread, and of one for each object.
const THREAD_ROWS: usize = 64 * ROW_WORDS;

const OBJECT_ROWS: usize = OBJECTS * ROW_WORDS;

// The row of an object.
fn slot(o: Object) -> u16
    ensures { result ≡ slot o }
{
    64 * (o.class as u16) + o.number as u16
}

// Whether a has no row among the threads, or an object of a none among the objects. The number of an object is one of the two fields.
#[tactic(auto, using(crate::proofs::Line::broad_small), unfolding(crate::specs::Line::broad))]
fn broad(x: &[u8], a: u16) -> bool
    ensures { result ≡ broad x.now a }
{
    thread(x, a) >= NUMBERS
        || target(x, a) >= NUMBERS
            && (given(x, a).number >= NUMBERS || taken(x, a).number >= NUMBERS)
}

// The place of a, where it synchronizes by it.
fn place_of(x: &[u8], a: u16) -> Option<u16>
    ensures { result ≡ place_of x.now a }
{
    let k = row_of(kind(x, a));
    if k.gives.placed || k.takes.placed {
        Some(place(x, a))
    } else {
        None
    }
}

// Whether every action has its rows, and the places by which actions synchronize rise with the positions.
fn rising(x: &[u8], n: u16) -> bool
    ensures { result ≡ not (any n (unfit x.now)) }
{
    let mut due: u32 = 0;
    for a in 0..n {
        if broad(x, a) {
            return false;
        }
        if let Some(place) = place_of(x, a) {
            let p = place as u32;
            if p < due {
                return false;
            }
            due = p + 1;
        }
    }
    true
}

// Whether a synchronizes, and not by its place.
fn freely(x: &[u8], a: u16) -> bool
    ensures { result ≡ freely x.now a }
{
    place_of(x, a).is_none() && sync(x, a)
}

// Whether no start stands after the beginning of its thread, and no end after a join of it.
fn timely(x: &[u8], n: u16) -> bool
    requires { any n (unfit x.now) ≡ false }
    ensures { result ≡ not (any n (late x.now)) }
{
    let mut seen = [false; OBJECTS];
    for a in 0..n {
        if freely(x, a) {
            if seen[slot(given(x, a)) as usize] {
                return false;
            }
            seen[slot(taken(x, a)) as usize] = true;
        }
    }
    true
}

// Whether the words are a part, and the section is in line.
#[tactic(auto, unfolding(crate::specs::Line::lined))]
fn in_line(x: &[u8], part: &[u64]) -> bool
    ensures { result ≡ lined x.now part.now }
{
    let n = size(x);
    part.len() == PART_WORDS && n as usize <= MAX_ACTIONS && rising(x, n) && timely(x, n)
}

// A row with the bit for a alone.
fn single(a: u16) -> [u64; ROW_WORDS]
    requires { a < max_actions }
    ensures { result ≡ marked (replicate row_words 0) 0 a }
{
    let mut r = [0u64; ROW_WORDS];
    if a < 64 {
        r[0] = 1 << a;
    } else {
        r[1] = 1 << (a - 64);
    }
    r
}

// Row a gets what is noted of the actions of its thread, and of those that take its object: all of them are later, and passed. Then a is noted, with its row.
fn sweep(x: &[u8], part: &mut [u64])
    requires { lined x.now part.old ≡ true }
    ensures { part.new ≡ lined_part x.now part.old }
{
    rows::clear(part);
    let mut later = [0u64; THREAD_ROWS];
    let mut through = [0u64; OBJECT_ROWS];
    for a in (0..size(x)).rev() {
        let t = thread(x, a) as u16;
        let mut own = [0u64; ROW_WORDS];
        rows::join(&mut own, 0, &later, t);
        rows::join(&mut own, 0, &through, slot(given(x, a)));
        rows::join(part, a, &own, 0);
        rows::join(&mut own, 0, &single(a), 0);
        rows::join(&mut later, t, &own, 0);
        rows::join(&mut through, slot(taken(x, a)), &own, 0);
    }
}

// Fills the part of a section in line, whatever stood there. The result is whether it is one; where it is none, the words stay.
#[tactic(auto, unfolding(crate::specs::Line::lined_part))]
pub fn lined(x: &[u8], part: &mut [u64]) -> bool
    ensures value { result ≡ lined x.now part.old }
    ensures part_after { part.new ≡ lined_part x.now part.old }
{
    let in_line = in_line(x, part);
    if in_line {
        sweep(x, part);
    }
    in_line
}
