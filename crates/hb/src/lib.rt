// Happens-before of a section, in the words of its own part.
#![tactic(auto)]

ghost use Rattle.std.specs.Prelude.{◌≡◌, ◌≤◌, length};
ghost use Rattle.model.specs.Limits.{max_actions, part_words};
ghost use Rattle.rows.specs.Part.{table};
ghost use Rattle.positions.specs.Lists.{positions};
ghost use Rattle.hb.specs.Edges.{from, rounds, happens};
ghost use Rattle.hb.specs.Passing.{receives, leads};

use fields::{size, thread};
use model::{Class, MAX_ACTIONS, PART_WORDS, ROW_WORDS};
use positions::lists::{TAKERS, listed};
use relations::{accepts, offered};

// The words of a row for each byte that a thread can be.
const THREAD_ROWS: usize = 256 * ROW_WORDS;

// The edges by which a synchronizes with those of the list.
fn edges_from(x: &[u8], part: &mut [u64], a: u16, takers: &[u16])
    ensures { part.new ≡ from x.now a takers.now part.old }
{
    let w = offered(x, a);
    if w.object.class == Class::NothingGiven as u8 {
        return;
    }
    for b in takers {
        if accepts(x, w, *b) {
            rows::set(part, a, *b);
        }
    }
}

// One sweep from the last action to the first. Row a gets the later actions of its thread, what those synchronize with, and what a synchronizes with: `later` has a row of this for each thread.
fn sweep(x: &[u8], part: &mut [u64], n: u16, takers: &[u16])
    requires part_len { length part.old ≡ part_words }
    requires n_le_max_actions { n ≤ max_actions }
    requires listed { takers.now ≡ positions (receives x.now) n }
    ensures { part.new ≡ table max_actions (leads x.now n 0) }
{
    rows::clear(part);
    let mut later = [0u64; THREAD_ROWS];
    for a in (0..n).rev() {
        let t = thread(x, a) as u16;
        rows::join(part, a, &later, t);
        edges_from(x, part, a, takers);
        rows::join(&mut later, t, part, a);
        rows::set(&mut later, t, a);
    }
}

// A way to a position that nothing synchronizes with comes in program order, and the row of where it comes from has all that the position leads to: a round for it would change nothing.
fn close(part: &mut [u64], n: u16, takers: &[u16])
    ensures { part.new ≡ rounds n takers.now part.old }
{
    for k in takers {
        rows::round(part, n, *k);
    }
}

// Fills a section's part, whatever stood there.
pub fn fill(x: &[u8], part: &mut [u64])
    ensures { part.new ≡ happens x.now part.old }
{
    if lined::lined(x, part) {
        return;
    }
    if part.len() != PART_WORDS {
        return;
    }
    let n = size(x);
    if MAX_ACTIONS < n as usize {
        return;
    }
    let takers = listed(x, TAKERS);
    sweep(x, part, n, takers.as_slice());
    close(part, n, takers.as_slice());
}
