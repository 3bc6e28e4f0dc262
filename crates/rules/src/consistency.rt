// 17 and 18, the consistency rules.
ghost use Rattle.std.specs.Prelude.{◌≡◌, ◌&&◌, eqb, ltb, leb, ◌<◌};
ghost use Rattle.model.specs.Search.{any, found, position, below};
ghost use Rattle.model.specs.Answers.{checked};
ghost use Rattle.model.specs.Layout.{size, target, place};
ghost use Rattle.model.specs.WorkArea.{shown};
ghost use Rattle.model.specs.Rules.{latest, broken17, broken18, consistent};
ghost use Rattle.rules.specs.Sources.{ident_at, before, foreseen};
ghost use Rattle.rules.specs.Searches.{hiding};

use crate::seen::Found;
use answers::rule;
use model::{Answer, Kind};

// b is on the variable, at a place below this one and from `from` on.
fn in_range(x: &[u8], variable: u8, from: u16, below: u16, b: u16) -> bool
    ensures { result ≡ (eqb (target x.now b) variable && (leb from (place x.now b) && ltb (place x.now b) below)) }
{
    fields::target(x, b) == variable && (from..below).contains(&fields::place(x, b))
}

// The identifier of the write w; 0 of the initial one.
fn ident_at(x: &[u8], w: Option<u16>) -> u16
    ensures { result ≡ ident_at x.now w }
{
    w.map_or(0, |w| fields::ident(x, w))
}

// The write w happens before b: the initial one does before every action.
fn before(part: &[u64], w: Option<u16>, b: u16) -> bool
    ensures { result ≡ before (shown part.now) w b }
{
    w.is_none_or(|w| rows::before(part, w, b))
}

// a happens before the write w: never before the initial one.
fn foreseen(part: &[u64], a: u16, w: Option<u16>) -> bool
    ensures { result ≡ foreseen (shown part.now) a w }
{
    w.is_some_and(|w| rows::before(part, a, w))
}

// b happens after the write w, and before a.
fn between(part: &[u64], w: Option<u16>, b: u16, a: u16) -> bool
    ensures { result ≡ (before (shown part.now) w b && shown part.now b a) }
{
    before(part, w, b) && rows::before(part, b, a)
}

impl Found<'_> {
    // The write to a's variable of largest place below a's, in one pass over the writes: a later one has a place from `from` on.
    fn latest(&self, a: u16) -> Option<u16>
        ensures { result ≡ below (size self.now.x.now) (latest self.now.x.now a) }
    {
        let variable = fields::target(self.x, a);
        let below = fields::place(self.x, a);
        let writes = self.writes();
        let mut best = None;
        let mut from = 0;
        for b in writes {
            if in_range(self.x, variable, from, below, *b) {
                best = Some(*b);
                from = fields::place(self.x, *b) + 1;
            }
        }
        best
    }

    fn broken17(&self, a: u16) -> bool
        ensures { result ≡ broken17 self.now.x.now a }
    {
        fields::kind(self.x, a) == Kind::VolatileRead as u8
            && fields::seen(self.x, a) != ident_at(self.x, self.latest(a))
    }

    pub(crate) fn first17(&self) -> Option<u16>
        ensures { result ≡ position (found (size self.now.x.now) (broken17 self.now.x.now)) }
    {
        (0..fields::size(self.x)).find(|a| self.broken17(*a))
    }

    // A write to a's variable happens before a, and after the write w. What is cheap and fails most often comes first.
    fn hidden(&self, a: u16, w: Option<u16>) -> bool
        ensures { result ≡ any (size self.now.x.now) (hiding (shown self.now.part.now) self.now.x.now a w) }
    {
        let variable = fields::target(self.x, a);
        self.writes().iter().any(|b| fields::target(self.x, *b) == variable
            && between(self.part, w, *b, a))
    }

    fn broken18(&self, a: u16) -> bool
        requires { a < size self.now.x.now }
        ensures { result ≡ broken18 (shown self.now.part.now) self.now.x.now a }
    {
        if fields::kind(self.x, a) != Kind::Read as u8 {
            return false;
        }
        let w = self.source(a);
        foreseen(self.part, a, w) || self.hidden(a, w)
    }

    pub(crate) fn first18(&self) -> Option<u16>
        ensures { result ≡ position (found (size self.now.x.now) (broken18 (shown self.now.part.now) self.now.x.now)) }
    {
        (0..fields::size(self.x)).find(|a| self.broken18(*a))
    }

    // The seen-write rules and the consistency rules, 15 to 18.
    pub(crate) fn consistent(&self, s: u8) -> Result<(), Answer>
        ensures { result ≡ checked (consistent (shown self.now.part.now) s self.now.x.now) }
    {
        rule(15, s, self.first15())?;
        rule(16, s, self.first16())?;
        rule(17, s, self.first17())?;
        rule(18, s, self.first18())
    }
}
