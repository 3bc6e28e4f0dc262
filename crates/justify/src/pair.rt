// Rules of two actions: 22 and 23 of two of E, 29 of two of E_i. An action that is seen to break none is passed over, for in most
// records nothing is broken.
ghost use Rattle.std.specs.Prelude.{◌≡◌, ◌<◌, not, true};
ghost use Rattle.model.specs.Search.{any, found, position};
ghost use Rattle.model.specs.Answers.{«rule₂», checked};
ghost use Rattle.model.specs.Layout.{size};
ghost use Rattle.model.specs.WorkArea.{shown};
ghost use Rattle.model.specs.Justified.{C, «just_one», before, outside, broken29};
ghost use Rattle.justify.specs.Row.{Masked};
ghost use Rattle.justify.specs.Idle.{strays22, strays23};

use crate::found::{first_pair, mask};
use crate::row::differ;
use crate::step::{Step, committed};
use answers::rule_of_pair;
use fields::{ident, kind, place, size};
use model::{Answer, Kind, ROW_WORDS};

// Whether a's place is below b's.
#[tactic(auto, unfolding(model::specs::Justified::before))]
fn lower_place(x: &[u8], a: u16, b: u16) -> bool
    ensures { result ≡ before x.now a b }
{
    place(x, a) < place(x, b)
}

impl Step<'_> {
    #[tactic(auto, unfolding(model::specs::Justified::just_one))]
    fn broken22(&self, x: u16, y: u16) -> bool
        requires { (x < size self.now.e.now) × (y < size self.now.e.now) }
        ensures { result ≡ just_one (shown self.now.e_part.now) (shown self.now.f_part.now) self.now.e.now self.now.f.now self.now.i x y }
    {
        committed(self.e, self.i, x)
            && committed(self.e, self.i, y)
            && rows::before(self.e_part, x, y)
                != rows::before(self.f_part, self.twin(x), self.twin(y))
    }

    // The actions of C_i.
    fn committed_mask(&self) -> [u64; ROW_WORDS]
        ensures { Masked result (size self.now.e.now) (C self.now.e.now self.now.i) }
    {
        mask(size(self.e), |b| committed(self.e, self.i, b))
    }

    // Whether b is in C_i, and stands at another position in f.
    #[tactic(auto, unfolding(crate::specs::Idle::strays22))]
    fn strays22(&self, b: u16) -> bool
        requires { b < size self.now.e.now }
        ensures { result ≡ strays22 self.now.e.now self.now.f.now self.now.i b }
    {
        committed(self.e, self.i, b) && self.twin(b) != b
    }

    fn calm22(&self) -> bool
        ensures { result ≡ not (any (size self.now.e.now) (strays22 self.now.e.now self.now.f.now self.now.i)) }
    {
        !(0..size(self.e)).any(|b| self.strays22(b))
    }

    // The first y with which x breaks 22. Where no action strays, `calm`, the rows of x that agree in C_i, which is the mask, say that there is none.
    fn partner22(&self, mask: &[u64; ROW_WORDS], calm: bool, x: u16) -> Option<u16>
        requires committed { Masked mask.now (size self.now.e.now) (C self.now.e.now self.now.i) }
        requires none_strays { calm ≡ not (any (size self.now.e.now) (strays22 self.now.e.now self.now.f.now self.now.i)) }
        requires x_bound { x < size self.now.e.now }
        ensures { result ≡ position (found (size self.now.e.now) (just_one (shown self.now.e_part.now) (shown self.now.f_part.now) self.now.e.now self.now.f.now self.now.i x)) }
    {
        if !committed(self.e, self.i, x) {
            return None;
        }
        if calm && !differ(self.e_part, self.f_part, x, mask) {
            return None;
        }
        (0..size(self.e)).find(|y| self.broken22(x, *y))
    }

    pub(crate) fn rule22(&self) -> Result<(), Answer>
        ensures { result ≡ checked (rule₂ 22 self.now.i (size self.now.e.now) (just_one (shown self.now.e_part.now) (shown self.now.f_part.now) self.now.e.now self.now.f.now self.now.i)) }
    {
        let mask = self.committed_mask();
        let calm = self.calm22();
        rule_of_pair(
            22,
            self.i,
            first_pair(size(self.e), |x| self.partner22(&mask, calm, x)),
        )
    }

    #[tactic(auto, unfolding(model::specs::Justified::just_one))]
    fn broken23(&self, x: u16, y: u16) -> bool
        requires { (x < size self.now.e.now) × (y < size self.now.e.now) }
        ensures { result ≡ just_one (before self.now.e.now) (before self.now.f.now) self.now.e.now self.now.f.now self.now.i x y }
    {
        committed(self.e, self.i, x)
            && committed(self.e, self.i, y)
            && lower_place(self.e, x, y) != lower_place(self.f, self.twin(x), self.twin(y))
    }

    // Whether b is in C_i, and has another place in f.
    #[tactic(auto, unfolding(crate::specs::Idle::strays23))]
    fn strays23(&self, b: u16) -> bool
        requires { b < size self.now.e.now }
        ensures { result ≡ strays23 self.now.e.now self.now.f.now self.now.i b }
    {
        committed(self.e, self.i, b) && place(self.f, self.twin(b)) != place(self.e, b)
    }

    fn calm23(&self) -> bool
        ensures { result ≡ not (any (size self.now.e.now) (strays23 self.now.e.now self.now.f.now self.now.i)) }
    {
        !(0..size(self.e)).any(|b| self.strays23(b))
    }

    // The first y with which x breaks 23; none where no action strays.
    fn partner23(&self, calm: bool, x: u16) -> Option<u16>
        requires none_strays { calm ≡ not (any (size self.now.e.now) (strays23 self.now.e.now self.now.f.now self.now.i)) }
        requires x_bound { x < size self.now.e.now }
        ensures { result ≡ position (found (size self.now.e.now) (just_one (before self.now.e.now) (before self.now.f.now) self.now.e.now self.now.f.now self.now.i x)) }
    {
        if !committed(self.e, self.i, x) {
            return None;
        }
        if calm {
            return None;
        }
        (0..size(self.e)).find(|y| self.broken23(x, *y))
    }

    pub(crate) fn rule23(&self) -> Result<(), Answer>
        ensures { result ≡ checked (rule₂ 23 self.now.i (size self.now.e.now) (just_one (before self.now.e.now) (before self.now.f.now) self.now.e.now self.now.f.now self.now.i)) }
    {
        let calm = self.calm23();
        rule_of_pair(
            23,
            self.i,
            first_pair(size(self.e), |x| self.partner23(calm, x)),
        )
    }

    // Whether x is external and outside C_i.
    #[tactic(auto, unfolding(model::specs::Justified::outside))]
    fn outside(&self, x: u16) -> bool
        ensures { result ≡ outside self.now.e.now self.now.f.now self.now.i x }
    {
        kind(self.f, x) == Kind::External as u8 && !self.has(ident(self.f, x))
    }

    // x is external and outside C_i, which is asked once, before all y. Most pairs are not in hb, which is asked first.
    #[tactic(auto, unfolding(model::specs::Justified::broken29))]
    fn broken29(&self, x: u16, y: u16) -> bool
        requires { outside self.now.e.now self.now.f.now self.now.i x ≡ true }
        ensures { result ≡ broken29 (shown self.now.f_part.now) self.now.e.now self.now.f.now self.now.i x y }
    {
        rows::before(self.f_part, x, y) && self.has(ident(self.f, y))
    }

    // The first y with which x breaks 29.
    fn partner29(&self, x: u16) -> Option<u16>
        ensures { result ≡ position (found (size self.now.f.now) (broken29 (shown self.now.f_part.now) self.now.e.now self.now.f.now self.now.i x)) }
    {
        if !self.outside(x) {
            return None;
        }
        (0..size(self.f)).find(|y| self.broken29(x, *y))
    }

    pub(crate) fn rule29(&self) -> Result<(), Answer>
        ensures { result ≡ checked (rule₂ 29 self.now.i (size self.now.f.now) (broken29 (shown self.now.f_part.now) self.now.e.now self.now.f.now self.now.i)) }
    {
        rule_of_pair(29, self.i, first_pair(size(self.f), |x| self.partner29(x)))
    }
}
