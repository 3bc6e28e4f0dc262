// What 28 asks of an edge of a section: whether it is one that must stand in other sections and doesn't.
#![tactic(auto)]

ghost use Rattle.std.specs.Prelude.{◌≡◌, ◌||◌, eqb, leb};
ghost use Rattle.model.specs.Search.{any};
ghost use Rattle.model.specs.Layout.{size};
ghost use Rattle.model.specs.WorkArea.{shown};
ghost use Rattle.model.specs.Justified.{«sw_to», joins, «sw#», through, lacks, missing};
ghost use Rattle.edges.specs.Edge.{stands, loose};

use fields::{ident, justifying, size};
use record::section;
use relations::{po, sw};

// An edge between the actions with the identifiers `from` and `to`, which stand at `first` and `second` in the edge's own section.
#[derive(Clone, Copy)]
struct Edge {
    from: u16,
    to: u16,
    first: u16,
    second: u16,
}

// Whether z is between x and y in hb.
#[tactic(auto, unfolding(model::specs::Justified::through))]
fn through(part: &[u64], x: u16, y: u16, z: u16) -> bool
    ensures { result ≡ through (shown part.now) x y z }
{
    rows::before(part, x, z) && rows::before(part, z, y)
}

// Whether one of n actions is between x and y in hb.
fn between(part: &[u64], n: u16, x: u16, y: u16) -> bool
    ensures { result ≡ any n (through (shown part.now) x y) }
{
    (0..n).any(|z| through(part, x, y, z))
}

// Whether b has the identifier d, and a synchronizes with b.
#[tactic(auto, unfolding(model::specs::Justified::sw_to))]
fn sw_to(x: &[u8], d: u16, a: u16, b: u16) -> bool
    ensures { result ≡ sw_to x.now d a b }
{
    ident(x, b) == d && sw(x, a, b)
}

// Whether a synchronizes with an action that has the identifier d.
fn any_sw_to(x: &[u8], d: u16, a: u16) -> bool
    ensures { result ≡ any (size x.now) (sw_to x.now d a) }
{
    (0..size(x)).any(|b| sw_to(x, d, a, b))
}

// Whether a has the identifier c, and synchronizes with an action that has d.
#[tactic(auto, unfolding(model::specs::Justified::joins))]
fn joins(x: &[u8], c: u16, d: u16, a: u16) -> bool
    ensures { result ≡ joins x.now c d a }
{
    ident(x, a) == c && any_sw_to(x, d, a)
}

// Whether the edge stands in x at the positions that it has in its own section.
#[tactic(auto, unfolding(crate::specs::Edge::stands))]
fn stands(x: &[u8], edge: Edge) -> bool
    ensures { result ≡ stands x.now edge }
{
    let n = size(x);
    edge.first < n
        && edge.second < n
        && ident(x, edge.first) == edge.from
        && sw_to(x, edge.to, edge.first, edge.second)
}

// Whether actions with the edge's identifiers synchronize, first with second; mostly those at its positions do.
fn joined(x: &[u8], edge: Edge) -> bool
    ensures { result ≡ sw# x.now edge.from edge.to }
{
    stands(x, edge) || (0..size(x)).any(|a| joins(x, edge.from, edge.to, a))
}

// Whether E_j is E_i or comes after it in the sequence, which E ends.
fn later(i: u8, j: u8) -> bool
    ensures { result ≡ (leb i j || eqb j 0) }
{
    i <= j || j == 0
}

// Whether j is one of the sections in which an edge of E_i must stand, and there it does not.
#[tactic(auto, unfolding(model::specs::Justified::lacks))]
fn lacks(r: &[u8], i: u8, edge: Edge, j: u8) -> bool
    ensures { result ≡ lacks r.now i edge.from edge.to j }
{
    later(i, j) && !joined(section(r, j), edge)
}

// Whether an edge of E_i is missing in some E_j, j from i to K, or in E.
fn missing(r: &[u8], i: u8, edge: Edge) -> bool
    ensures { result ≡ missing r.now i edge.from edge.to }
{
    (0..justifying(r) as u16 + 1).any(|j| lacks(r, i, edge, j as u8))
}

// Whether an edge from x to y is not in program order, no action stands between, and it is missing where it must stand.
#[tactic(auto, unfolding(crate::specs::Edge::loose))]
pub fn loose(r: &[u8], f: &[u8], part: &[u64], i: u8, x: u16, y: u16) -> bool
    ensures { result ≡ loose (shown part.now) r.now f.now i x y }
{
    if po(f, x, y) || between(part, size(f), x, y) {
        return false;
    }
    let edge = Edge {
        from: ident(f, x),
        to: ident(f, y),
        first: x,
        second: y,
    };
    missing(r, i, edge)
}
