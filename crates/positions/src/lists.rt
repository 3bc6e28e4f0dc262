// The positions of the actions of some kinds, in section order, so that a search looks at those alone.
ghost use Rattle.std.specs.Prelude.{◌≡◌, ◌<◌, ◌≤◌, ◌++◌, ◌∷◌, [], ℕ, List, take, length};
ghost use Rattle.model.specs.Limits.{max_actions};
ghost use Rattle.positions.specs.Lists.{of_kinds, within, listed};

use model::{Kind, MAX_ACTIONS};
use std::marker::Model;

// A set of kinds, kind k being bit k: the writes;
pub const WRITES: u16 = (1 << Kind::Write as u16) | (1 << Kind::VolatileWrite as u16);

// the accesses that can race;
pub const PLAIN: u16 = (1 << Kind::Read as u16) | (1 << Kind::Write as u16);

// those of them that write;
pub const PLAIN_WRITES: u16 = 1 << Kind::Write as u16;

// the locks and the unlocks;
pub const LOCKS: u16 = (1 << Kind::Lock as u16) | (1 << Kind::Unlock as u16);

// the last actions of threads;
pub const LASTS: u16 = 1 << Kind::Last as u16;

// those that others synchronize with;
pub const TAKERS: u16 = (1 << Kind::VolatileRead as u16)
    | (1 << Kind::Lock as u16)
    | (1 << Kind::First as u16)
    | (1 << Kind::Join as u16);

// the synchronization actions.
pub const SYNCS: u16 = TAKERS
    | (1 << Kind::VolatileWrite as u16)
    | (1 << Kind::Unlock as u16)
    | (1 << Kind::Start as u16)
    | LASTS;

// Positions in section order, in an array with room for the limit. A contract sees them as a list.
#[derive(Drop)]
pub struct Positions {
    at: [u16; MAX_ACTIONS],
    count: usize,
}

impl Model for Positions {
    ghost Value = { List ℕ };

    ghost view = { λ p. take p.count p.at };

    ghost invariant = { λ p. p.count ≤ max_actions };
}

impl Positions {
    fn new() -> Self
        ensures { result ≡ [] }
    {
        Positions {
            at: [0; MAX_ACTIONS],
            count: 0,
        }
    }

    fn push(&mut self, b: u16)
        requires { length self.old < max_actions }
        ensures { self.new ≡ self.old ++ b ∷ [] }
    {
        self.at[self.count] = b;
        self.count += 1;
    }

    pub fn as_slice(&self) -> &[u16]
        ensures { result.now ≡ self.now }
    {
        &self.at[..self.count]
    }
}

// Whether action b is of a kind in the set.
pub fn of_kinds(x: &[u8], set: u16, b: u16) -> bool
    ensures { result ≡ of_kinds x.now set b }
{
    let kind = fields::kind(x, b);
    if kind > 15 {
        return false;
    }
    (set >> kind) % 2 == 1
}

// The section's count; 0 over the limit.
fn within(x: &[u8]) -> u16
    ensures { result ≡ within x.now }
{
    let n = fields::size(x);
    if n as usize > MAX_ACTIONS { 0 } else { n }
}

// The positions of the actions whose kinds are in the set; none where the section is over the limit.
pub fn listed(x: &[u8], set: u16) -> Positions
    ensures { result ≡ listed x.now set }
{
    let mut list = Positions::new();
    for b in 0..within(x) {
        if of_kinds(x, set, b) {
            list.push(b);
        }
    }
    list
}
