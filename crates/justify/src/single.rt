// The rules of one action: 21, 24 and 25 of one of E, 26 and 27 of one of E_i.
ghost use Rattle.std.specs.Prelude.{◌≡◌, ◌-◌, ◌<◌, ◌&&◌};
ghost use Rattle.model.specs.Search.{any};
ghost use Rattle.model.specs.Answers.{rule, checked};
ghost use Rattle.model.specs.Layout.{size, seen};
ghost use Rattle.model.specs.Rules.{«seen_hb»};
ghost use Rattle.model.specs.WorkArea.{shown};
ghost use Rattle.model.specs.Justified.{«C#», «twin_of», alike, broken21, broken24, broken25, broken26, broken27};

use crate::step::{Step, committed};
use answers::rule;
use fields::{ident, kind, seen, size, target, thread, value};
use model::Answer;
use table::{read, write};

// Whether x of f has a's identifier, thread, kind and target.
#[tactic(auto, unfolding(model::specs::Justified::alike))]
fn alike(e: &[u8], f: &[u8], a: u16, x: u16) -> bool
    ensures { result ≡ alike e.now f.now a x }
{
    ident(f, x) == ident(e, a)
        && thread(f, x) == thread(e, a)
        && kind(f, x) == kind(e, a)
        && target(f, x) == target(e, a)
}

impl Step<'_> {
    // Whether some action of f is like a; where there is one, it is mostly the twin.
    fn kept(&self, a: u16) -> bool
        requires { a < size self.now.e.now }
        ensures { result ≡ any (size self.now.f.now) (alike self.now.e.now self.now.f.now a) }
    {
        let n = size(self.f);
        let x = self.twin(a);
        if x < n && alike(self.e, self.f, a, x) {
            return true;
        }
        (0..n).any(|y| alike(self.e, self.f, a, y))
    }

    #[tactic(auto, unfolding(model::specs::Justified::broken21))]
    fn broken21(&self, a: u16) -> bool
        requires { a < size self.now.e.now }
        ensures { result ≡ broken21 self.now.e.now self.now.f.now self.now.i a }
    {
        committed(self.e, self.i, a) && !self.kept(a)
    }

    pub(crate) fn rule21(&self) -> Result<(), Answer>
        ensures { result ≡ checked (rule 21 self.now.i (size self.now.e.now) (broken21 self.now.e.now self.now.f.now self.now.i)) }
    {
        rule(21, self.i, (0..size(self.e)).find(|a| self.broken21(*a)))
    }

    #[tactic(auto, using(model::proofs::Signed::same_bits), unfolding(model::specs::Justified::broken24))]
    fn broken24(&self, a: u16) -> bool
        requires { a < size self.now.e.now }
        ensures { result ≡ broken24 self.now.e.now self.now.f.now self.now.i a }
    {
        committed(self.e, self.i, a)
            && write(self.e, a)
            && value(self.e, a) != value(self.f, self.twin(a))
    }

    pub(crate) fn rule24(&self) -> Result<(), Answer>
        ensures { result ≡ checked (rule 24 self.now.i (size self.now.e.now) (broken24 self.now.e.now self.now.f.now self.now.i)) }
    {
        rule(24, self.i, (0..size(self.e)).find(|a| self.broken24(*a)))
    }

    #[tactic(auto, unfolding(model::specs::Justified::broken25))]
    fn broken25(&self, a: u16) -> bool
        requires { a < size self.now.e.now }
        ensures { result ≡ broken25 self.now.e.now self.now.f.now self.now.i a }
    {
        committed(self.e, self.previous(), a)
            && read(self.e, a)
            && seen(self.e, a) != seen(self.f, self.twin(a))
    }

    pub(crate) fn rule25(&self) -> Result<(), Answer>
        ensures { result ≡ checked (rule 25 self.now.i (size self.now.e.now) (broken25 self.now.e.now self.now.f.now self.now.i)) }
    {
        rule(25, self.i, (0..size(self.e)).find(|a| self.broken25(*a)))
    }

    // Whether the write that x sees is hb it.
    #[tactic(auto, unfolding(model::specs::Rules::seen_hb))]
    fn seen_hb(&self, x: u16) -> bool
        ensures { result ≡ seen_hb (shown self.now.f_part.now) self.now.f.now x x }
    {
        let d = seen(self.f, x);
        d == 0 || rows::before(self.f_part, self.in_f(d), x)
    }

    #[tactic(auto, unfolding(model::specs::Justified::broken26))]
    fn broken26(&self, x: u16) -> bool
        ensures { result ≡ broken26 (shown self.now.f_part.now) self.now.e.now self.now.f.now self.now.i x }
    {
        read(self.f, x) && !self.had(ident(self.f, x)) && !self.seen_hb(x)
    }

    pub(crate) fn rule26(&self) -> Result<(), Answer>
        ensures { result ≡ checked (rule 26 self.now.i (size self.now.f.now) (broken26 (shown self.now.f_part.now) self.now.e.now self.now.f.now self.now.i)) }
    {
        rule(26, self.i, (0..size(self.f)).find(|x| self.broken26(*x)))
    }

    // Whether the writes that x sees in E and in E_i are in C_(i-1). C_0 is empty: at i = 1 the initial write is not.
    fn seen_before(&self, x: u16) -> bool
        ensures { result ≡ (C# self.now.e.now (self.now.i - 1) (seen self.now.e.now (twin_of self.now.f.now self.now.e.now x)) && C# self.now.e.now (self.now.i - 1) (seen self.now.f.now x)) }
    {
        let a = self.in_e(ident(self.f, x));
        self.had(seen(self.e, a)) && self.had(seen(self.f, x))
    }

    #[tactic(auto, unfolding(model::specs::Justified::new, model::specs::Justified::broken27))]
    fn broken27(&self, x: u16) -> bool
        ensures { result ≡ broken27 self.now.e.now self.now.f.now self.now.i x }
    {
        read(self.f, x) && self.fresh(ident(self.f, x)) && !self.seen_before(x)
    }

    pub(crate) fn rule27(&self) -> Result<(), Answer>
        ensures { result ≡ checked (rule 27 self.now.i (size self.now.f.now) (broken27 self.now.e.now self.now.f.now self.now.i)) }
    {
        rule(27, self.i, (0..size(self.f)).find(|x| self.broken27(*x)))
    }
}
