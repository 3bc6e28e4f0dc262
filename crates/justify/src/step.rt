// What the rules of one i are asked with: e is section 0 of the record r and f section i.
ghost use Rattle.std.specs.Prelude.{◌≡◌, ◌-◌, ◌<◌};
ghost use Rattle.model.specs.Layout.{section, size};
ghost use Rattle.model.specs.Rules.{twin};
ghost use Rattle.model.specs.Justified.{C, «C#», «twin_of»};
ghost use Rattle.justify.specs.Found.{Idents, Staged, Holds, stage, fresh};

use answers::NONE;
use fields::{commit, size};
use model::MAX_ACTIONS;
use positions::firsts::KEYS;
use positions::idents::position_of;

#[derive(Drop)]
pub(crate) struct Step<'a> {
    pub(crate) r: &'a [u8],
    pub(crate) e: &'a [u8],
    pub(crate) f: &'a [u8],
    // Happens-before of the one and of the other, and the tables by which their identifiers are found.
    pub(crate) e_part: &'a [u64],
    pub(crate) f_part: &'a [u64],
    pub(crate) e_firsts: &'a [u16; KEYS],
    pub(crate) f_firsts: &'a [u16; KEYS],
    // The twin in f of each action of e; the least commit number of each identifier of e, at its first position.
    pub(crate) twins: &'a [u16; MAX_ACTIONS],
    pub(crate) least: &'a [u16; MAX_ACTIONS],
    pub(crate) i: u8,
    ghost first_section: { e.now ≡ section r.now 0 },
    ghost own_section: { f.now ≡ section r.now i },
    ghost staged: { Staged e.now e_firsts.now least.now },
    ghost f_idents: { Idents f.now f_firsts.now },
    ghost twins_held: { Holds twins.now (size e.now) (twin_of e.now f.now) },
}

// Whether action a of e is in C_i.
pub(crate) fn committed(e: &[u8], i: u8, a: u16) -> bool
    ensures { result ≡ C e.now i a }
{
    commit(e, a) <= i
}

impl Step<'_> {
    // The twin in f of action a of e.
    pub(crate) fn twin(&self, a: u16) -> u16
        requires { a < size self.now.e.now }
        ensures { result ≡ twin_of self.now.e.now self.now.f.now a }
    {
        self.twins[a as usize]
    }

    // The position of the identifier d in e, and in f; the size where there is none.
    pub(crate) fn in_e(&self, d: u16) -> u16
        ensures { result ≡ twin self.now.e.now d }
    {
        position_of(self.e, self.e_firsts, d)
    }

    pub(crate) fn in_f(&self, d: u16) -> u16
        ensures { result ≡ twin self.now.f.now d }
    {
        position_of(self.f, self.f_firsts, d)
    }

    // The least i for which the identifier d is in C_i.
    fn stage(&self, d: u16) -> u16
        ensures { result ≡ stage self.now.e.now d }
    {
        if d == 0 {
            return 1;
        }
        let a = self.in_e(d);
        if a < size(self.e) {
            self.least[a as usize]
        } else {
            NONE
        }
    }

    // i - 1, and 0 for 0.
    pub(crate) fn previous(&self) -> u8
        ensures { result ≡ self.now.i - 1 }
    {
        self.i.saturating_sub(1)
    }

    // Whether the identifier d is in C_i.
    pub(crate) fn has(&self, d: u16) -> bool
        ensures { result ≡ C# self.now.e.now self.now.i d }
    {
        self.stage(d) <= self.i as u16
    }

    // Whether it is in C_(i-1).
    pub(crate) fn had(&self, d: u16) -> bool
        ensures { result ≡ C# self.now.e.now (self.now.i - 1) d }
    {
        self.stage(d) <= self.previous() as u16
    }

    // Whether it is in C_i outside C_(i-1).
    pub(crate) fn fresh(&self, d: u16) -> bool
        ensures { result ≡ fresh self.now.e.now self.now.i d }
    {
        let s = self.stage(d);
        s <= self.i as u16 && s > self.previous() as u16
    }
}
