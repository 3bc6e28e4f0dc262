// The fields of a record and of a section, read from their bytes in place. A byte past the end reads as 0, so every accessor takes every input.
#![tactic(auto)]

ghost use Rattle.std.specs.Prelude.{◌≡◌, ◌<◌, cond};
ghost use Rattle.model.specs.Layout.{byte, two, eight, version, threads, variables, monitors, K, header, size, ident, thread, kind, target, commit, place, seen, unused, value, action};

use model::{Action, Header};

// "JXE", the first bytes of a record.
pub const MARK: [u8; 3] = [74, 88, 69];

pub fn byte(r: &[u8], i: u32) -> u8
    ensures { result ≡ byte r.now i }
{
    r.get(i as usize).copied().unwrap_or(0)
}

// Where both bytes are there, one test and one load.
fn two(r: &[u8], i: u32) -> u16
    requires { i < 4294967295 }
    ensures { result ≡ two r.now i }
{
    let at = i as usize;
    if at + 1 < r.len() {
        u16::from_le_bytes([r[at], r[at + 1]])
    } else {
        u16::from_le_bytes([byte(r, i), byte(r, i + 1)])
    }
}

fn eight(r: &[u8], i: u32) -> u64
    requires { i < 4294967280 }
    ensures { result ≡ eight r.now i }
{
    let a = two(r, i) as u64;
    let b = two(r, i + 2) as u64;
    let c = two(r, i + 4) as u64;
    let d = two(r, i + 6) as u64;
    a + 65536 * (b + 65536 * (c + 65536 * d))
}

// The header.
pub fn version(r: &[u8]) -> u16
    ensures { result ≡ version r.now }
{
    two(r, 3)
}

pub fn threads(r: &[u8]) -> u8
    ensures { result ≡ threads r.now }
{
    byte(r, 5)
}

pub fn variables(r: &[u8]) -> u8
    ensures { result ≡ variables r.now }
{
    byte(r, 6)
}

pub fn monitors(r: &[u8]) -> u8
    ensures { result ≡ monitors r.now }
{
    byte(r, 7)
}

pub fn justifying(r: &[u8]) -> u8
    ensures { result ≡ K r.now }
{
    byte(r, 8)
}

pub fn header(r: &[u8]) -> Header
    ensures { result ≡ header r.now }
{
    Header {
        threads: threads(r),
        variables: variables(r),
        monitors: monitors(r),
        justifying: justifying(r),
        map: eight(r, 9),
    }
}

// A section: the count of its actions, then the fields of action a.
pub fn size(x: &[u8]) -> u16
    ensures { result ≡ size x.now }
{
    two(x, 0)
}

pub fn ident(x: &[u8], a: u16) -> u16
    ensures { result ≡ ident x.now a }
{
    two(x, 2 + 20 * (a as u32))
}

pub fn thread(x: &[u8], a: u16) -> u8
    ensures { result ≡ thread x.now a }
{
    byte(x, 2 + 20 * (a as u32) + 2)
}

pub fn kind(x: &[u8], a: u16) -> u8
    ensures { result ≡ kind x.now a }
{
    byte(x, 2 + 20 * (a as u32) + 3)
}

pub fn target(x: &[u8], a: u16) -> u8
    ensures { result ≡ target x.now a }
{
    byte(x, 2 + 20 * (a as u32) + 4)
}

// The thread where `own`, else the target: which of the two bytes is loaded is computed, and no way is taken by it.
pub fn own_or_target(x: &[u8], a: u16, own: bool) -> u8
    ensures { result ≡ cond own (thread x.now a) (target x.now a) }
{
    let at = if own { 2 } else { 4 };
    byte(x, 2 + 20 * (a as u32) + at)
}

pub fn commit(x: &[u8], a: u16) -> u8
    ensures { result ≡ commit x.now a }
{
    byte(x, 2 + 20 * (a as u32) + 5)
}

pub fn place(x: &[u8], a: u16) -> u16
    ensures { result ≡ place x.now a }
{
    two(x, 2 + 20 * (a as u32) + 6)
}

pub fn seen(x: &[u8], a: u16) -> u16
    ensures { result ≡ seen x.now a }
{
    two(x, 2 + 20 * (a as u32) + 8)
}

pub fn unused(x: &[u8], a: u16) -> u16
    ensures { result ≡ unused x.now a }
{
    two(x, 2 + 20 * (a as u32) + 10)
}

#[tactic(auto, unfolding(model::specs::Layout::value))]
pub fn value(x: &[u8], a: u16) -> i64
    ensures { result ≡ value x.now a }
{
    eight(x, 2 + 20 * (a as u32) + 12).cast_signed()
}

pub fn action(x: &[u8], a: u16) -> Action
    ensures { result ≡ action x.now a }
{
    Action {
        ident: ident(x, a),
        thread: thread(x, a),
        kind: kind(x, a),
        target: target(x, a),
        commit: commit(x, a),
        place: place(x, a),
        seen: seen(x, a),
        value: value(x, a),
    }
}
