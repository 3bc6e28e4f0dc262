// What is found once and kept in arrays, so that no rule searches for it at each action or pair of actions; and the first pair of actions, which each rule of two
// looks for.
ghost use Rattle.std.specs.Prelude.{ℕ, Bool, Option, ◌≡◌, ◌<◌, ◌≤◌};
ghost use Rattle.model.specs.Limits.{max_actions};
ghost use Rattle.model.specs.Layout.{size};
ghost use Rattle.model.specs.Search.{found, «found₂», position};
ghost use Rattle.justify.specs.Row.{Masked};
ghost use Rattle.justify.specs.Found.{Idents, Least, Holds};

use answers::NONE;
use fields::{commit, ident, size};
use model::{MAX_ACTIONS, ROW_WORDS};
use positions::firsts::KEYS;
use positions::idents::position_of;

// The entries of the first n actions.
pub(crate) fn table<F: Fn(u16) -> u16>(n: u16, entry: F) -> [u16; MAX_ACTIONS]
    requires few { n ≤ max_actions }
    requires callable { (a : ℕ) → a < n → F.pre entry a }
    ensures { (g : ℕ → ℕ) → ((a v : ℕ) → a < n → F.post entry a v → v ≡ g a) → Holds result n g }
{
    let mut t = [0u16; MAX_ACTIONS];
    for a in 0..n {
        t[a as usize] = entry(a);
    }
    t
}

// The first n actions that are chosen, as a mask.
pub(crate) fn mask<F: Fn(u16) -> bool>(n: u16, chosen: F) -> [u64; ROW_WORDS]
    requires few { n ≤ max_actions }
    requires callable { (b : ℕ) → b < n → F.pre chosen b }
    ensures { (q : ℕ → Bool) → ((b : ℕ) (v : Bool) → b < n → F.post chosen b v → v ≡ q b) → Masked result n q }
{
    let mut m = [0u64; ROW_WORDS];
    for b in 0..n {
        if chosen(b) {
            rows::set(&mut m, 0, b);
        }
    }
    m
}

// The least commit number of each identifier, at its first position.
pub(crate) fn least_commits(e: &[u8], firsts: &[u16; KEYS]) -> [u16; MAX_ACTIONS]
    requires { Idents e.now firsts.now }
    ensures { Least e.now result (size e.now) }
{
    let n = size(e);
    let mut t = [NONE; MAX_ACTIONS];
    for a in 0..n {
        let b = position_of(e, firsts, ident(e, a)) as usize;
        let c = commit(e, a) as u16;
        if c < t[b] {
            t[b] = c;
        }
    }
    t
}

// The first of n actions x for which there is a y, and the first such y, which `partner` gives.
pub(crate) fn first_pair<F: Fn(u16) -> Option<u16>>(n: u16, partner: F) -> Option<(u16, u16)>
    requires { (x : ℕ) → x < n → F.pre partner x }
    ensures { (p : ℕ → ℕ → Bool) → ((x : ℕ) (y : Option ℕ) → x < n → F.post partner x y → y ≡ position (found n (p x))) → result ≡ found₂ n p }
{
    for x in 0..n {
        if let Some(y) = partner(x) {
            return Some((x, y));
        }
    }
    None
}
