// 15 and 16, the seen-write rules, and what they and the consistency rules look up.
ghost use Rattle.std.specs.Prelude.{◌≡◌, ◌&&◌, eqb, ltb, ◌≤◌, ◌<◌};
ghost use Rattle.model.specs.Limits.{max_actions};
ghost use Rattle.model.specs.Search.{any, found, position};
ghost use Rattle.model.specs.Layout.{size, ident, target, write};
ghost use Rattle.model.specs.Rules.{rival, broken15, broken16};
ghost use Rattle.positions.specs.Lists.{positions};
ghost use Rattle.positions.specs.Firsts.{firsts};
ghost use Rattle.rules.specs.Sources.{source, Sources, value_at};
ghost use Rattle.rules.specs.Searches.{seen_by};

use answers::NONE;
use model::MAX_ACTIONS;
use positions::firsts::{KEYS, Key};
use positions::lists::{Positions, WRITES};
use positions::{firsts, idents, lists};

// A section's bytes and its happens-before, and what the four rules look up, found once for them: the source of each action, and the writes.
#[derive(Drop)]
pub(crate) struct Found<'a> {
    pub x: &'a [u8],
    pub part: &'a [u64],
    sources: [u16; MAX_ACTIONS],
    writes: Positions,
    ghost kept: { Sources x.now sources },
    ghost listed: { writes ≡ positions (write x.now) (size x.now) },
}

// The action of the write that the read a sees; none for the initial write, and where a is no read.
fn source(x: &[u8], first: &[u16; KEYS], a: u16) -> Option<u16>
    requires x_bound { size x.now ≤ max_actions }
    requires first_value { first.now ≡ firsts x.now Key.Ident }
    ensures { result ≡ source x.now a }
{
    if !table::read(x, a) {
        return None;
    }
    let d = fields::seen(x, a);
    if d == 0 {
        return None;
    }
    Some(idents::position_of(x, first, d))
}

// The source of each action.
fn sources(x: &[u8]) -> [u16; MAX_ACTIONS]
    requires { size x.now ≤ max_actions }
    ensures { Sources x.now result }
{
    let first = firsts::firsts(x, Key::Ident);
    let mut t = [NONE; MAX_ACTIONS];
    for a in 0..fields::size(x) {
        t[a as usize] = source(x, &first, a).unwrap_or(NONE);
    }
    t
}

// b is a write to a's variable.
fn rival(x: &[u8], a: u16, b: u16) -> bool
    ensures { result ≡ rival x.now a b }
{
    table::write(x, b) && fields::target(x, b) == fields::target(x, a)
}

// Position w is that of a write to a's variable.
fn written(x: &[u8], a: u16, w: u16) -> bool
    ensures { result ≡ (ltb w (size x.now) && rival x.now a w) }
{
    w < fields::size(x) && rival(x, a, w)
}

// b has the identifier d, and is on the variable.
fn sought(x: &[u8], d: u16, variable: u8, b: u16) -> bool
    ensures { result ≡ (eqb (ident x.now b) d && eqb (target x.now b) variable) }
{
    fields::ident(x, b) == d && fields::target(x, b) == variable
}

// The value of the write w; 0 of the initial one.
fn value_at(x: &[u8], w: Option<u16>) -> i64
    ensures { result ≡ value_at x.now w }
{
    w.map_or(0, |w| fields::value(x, w))
}

impl<'a> Found<'a> {
    pub(crate) fn new(x: &'a [u8], part: &'a [u64]) -> Self
        requires { size x.now ≤ max_actions }
        ensures bytes { result.x.now ≡ x.now }
        ensures words { result.part.now ≡ part.now }
    {
        Found {
            x,
            part,
            sources: sources(x),
            writes: lists::listed(x, WRITES),
        }
    }

    // The kept source of a.
    pub(crate) fn source(&self, a: u16) -> Option<u16>
        requires { a < size self.now.x.now }
        ensures { result ≡ source self.now.x.now a }
    {
        let w = self.sources[a as usize];
        if w == NONE { None } else { Some(w) }
    }

    pub(crate) fn writes(&self) -> &[u16]
        ensures { result.now ≡ positions (write self.now.x.now) (size self.now.x.now) }
    {
        self.writes.as_slice()
    }

    // A write to a's variable has the identifier that a sees.
    fn sees_write(&self, a: u16) -> bool
        ensures { result ≡ any (size self.now.x.now) (seen_by self.now.x.now a) }
    {
        let d = fields::seen(self.x, a);
        let variable = fields::target(self.x, a);
        self.writes()
            .iter()
            .any(|b| sought(self.x, d, variable, *b))
    }

    // Where an identifier stands twice, which number 7 refuses, a later action may be the write.
    fn broken15(&self, a: u16) -> bool
        requires { a < size self.now.x.now }
        ensures { result ≡ broken15 self.now.x.now a }
    {
        let Some(w) = self.source(a) else {
            return false;
        };
        !written(self.x, a, w) && !self.sees_write(a)
    }

    pub(crate) fn first15(&self) -> Option<u16>
        ensures { result ≡ position (found (size self.now.x.now) (broken15 self.now.x.now)) }
    {
        (0..fields::size(self.x)).find(|a| self.broken15(*a))
    }

    fn broken16(&self, a: u16) -> bool
        requires { a < size self.now.x.now }
        ensures { result ≡ broken16 self.now.x.now a }
    {
        table::read(self.x, a) && fields::value(self.x, a) != value_at(self.x, self.source(a))
    }

    pub(crate) fn first16(&self) -> Option<u16>
        ensures { result ≡ position (found (size self.now.x.now) (broken16 self.now.x.now)) }
    {
        (0..fields::size(self.x)).find(|a| self.broken16(*a))
    }
}
