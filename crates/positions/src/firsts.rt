// The first action of each key, found once and kept, so that no rule searches for it at each action.
ghost use Rattle.std.specs.Prelude.{◌≡◌, cond, eqb};
ghost use Rattle.model.specs.Layout.{kind, target, place, sync};
ghost use Rattle.positions.specs.Firsts.{keys, key_of, firsts};

use crate::lists;
use answers::NONE;
use model::Kind;

// The keys of a table: a thread's and a target's byte, and every place that rule 11 admits.
pub const KEYS: usize = 256;

// The tables: of the synchronization actions by their places, of all actions by their threads, of the starts by the threads that they start, of all
// actions by the low bytes of their identifiers.
#[derive(Clone, Copy)]
pub enum Key {
    Place,
    Thread,
    Start,
    Ident,
}

fn place_key(x: &[u8], b: u16) -> u16
    ensures { result ≡ cond (sync x.now b) (place x.now b) keys }
{
    if lists::of_kinds(x, lists::SYNCS, b) {
        fields::place(x, b)
    } else {
        KEYS as u16
    }
}

fn start_key(x: &[u8], b: u16) -> u16
    ensures { result ≡ cond (eqb (kind x.now b) 7) (target x.now b) keys }
{
    if fields::kind(x, b) == Kind::Start as u8 {
        fields::target(x, b) as u16
    } else {
        KEYS as u16
    }
}

// The key of action b; past the keys where b isn't in the table.
fn key_of(x: &[u8], key: Key, b: u16) -> u16
    ensures { result ≡ key_of x.now key b }
{
    match key {
        Key::Place => place_key(x, b),
        Key::Thread => fields::thread(x, b) as u16,
        Key::Start => start_key(x, b),
        Key::Ident => fields::ident(x, b) % 256,
    }
}

// The first action of each key; none where there is no such action.
pub fn firsts(x: &[u8], key: Key) -> [u16; KEYS]
    ensures { result ≡ firsts x.now key }
{
    let n = fields::size(x);
    let mut first = [NONE; KEYS];
    for b in 0..n {
        let v = key_of(x, key, b) as usize;
        if v < KEYS {
            if first[v] == NONE {
                first[v] = b;
            }
        }
    }
    first
}
