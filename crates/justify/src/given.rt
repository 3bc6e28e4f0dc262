// 28: the edges of E_i. What an action gives is compared by its key with what each takes, and only where the keys are one is the edge looked at.
ghost use Rattle.std.specs.Prelude.{◌≡◌};
ghost use Rattle.model.specs.Search.{found, position};
ghost use Rattle.model.specs.Answers.{«rule₂», checked};
ghost use Rattle.model.specs.Layout.{size};
ghost use Rattle.model.specs.WorkArea.{shown};
ghost use Rattle.model.specs.Justified.{new, broken28};
ghost use Rattle.relations.specs.Objects.{taken, key};
ghost use Rattle.justify.specs.Row.{Masked};
ghost use Rattle.justify.specs.Found.{Holds};

use crate::found::{first_pair, mask, table};
use crate::row::shares;
use crate::step::Step;
use answers::rule_of_pair;
use edges::loose;
use fields::{ident, size};
use model::{Answer, Class, MAX_ACTIONS, ROW_WORDS};
use relations::{given, key, sw, taken};

impl Step<'_> {
    // The keys of what the actions of f take.
    fn heard(&self) -> [u16; MAX_ACTIONS]
        ensures { Holds result (size self.now.f.now) (λ y. key (taken self.now.f.now y)) }
    {
        table(size(self.f), |y| key(taken(self.f, y)))
    }

    // The actions of f in C_i outside C_(i-1).
    fn new_mask(&self) -> [u64; ROW_WORDS]
        ensures { Masked result (size self.now.f.now) (new self.now.e.now self.now.f.now self.now.i) }
    {
        mask(size(self.f), |z| self.fresh(ident(self.f, z)))
    }

    // The mask has the actions in C_i outside C_(i-1).
    fn broken28(&self, mask: &[u64; ROW_WORDS], x: u16, y: u16) -> bool
        requires { Masked mask.now (size self.now.f.now) (new self.now.e.now self.now.f.now self.now.i) }
        ensures { result ≡ broken28 (shown self.now.f_part.now) self.now.r.now self.now.i x y }
    {
        sw(self.f, x, y)
            && (shares(self.f_part, y, mask) && loose(self.r, self.f, self.f_part, self.i, x, y))
    }

    // The first y with which x breaks 28. `heard` has the keys of what the actions take, and the mask those in C_i outside C_(i-1).
    fn partner28(&self, heard: &[u16; MAX_ACTIONS], mask: &[u64; ROW_WORDS], x: u16) -> Option<u16>
        requires heard_held { Holds heard.now (size self.now.f.now) (λ y. key (taken self.now.f.now y)) }
        requires mask_held { Masked mask.now (size self.now.f.now) (new self.now.e.now self.now.f.now self.now.i) }
        ensures { result ≡ position (found (size self.now.f.now) (broken28 (shown self.now.f_part.now) self.now.r.now self.now.i x)) }
    {
        let g = given(self.f, x);
        if g.class == Class::NothingGiven as u8 {
            return None;
        }
        let k = key(g);
        (0..size(self.f)).find(|y| heard[*y as usize] == k && self.broken28(mask, x, *y))
    }

    pub(crate) fn rule28(&self) -> Result<(), Answer>
        ensures { result ≡ checked (rule₂ 28 self.now.i (size self.now.f.now) (broken28 (shown self.now.f_part.now) self.now.r.now self.now.i)) }
    {
        let heard = self.heard();
        let mask = self.new_mask();
        rule_of_pair(
            28,
            self.i,
            first_pair(size(self.f), |x| self.partner28(&heard, &mask, x)),
        )
    }
}
