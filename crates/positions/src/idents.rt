// The position of an identifier, by the table of the first actions whose identifiers have the same low byte.
ghost use Rattle.std.specs.Prelude.{◌≡◌};
ghost use Rattle.positions.specs.Idents.{from_slot};

use crate::firsts::KEYS;

// The first action with identifier d from the table's entry on, before which there is none; the section's size where there is none. A call is cheaper than
// the loop inlined: among the many values of a caller it would load its own from the stack at each action.
#[inline(never)]
pub fn position_of(x: &[u8], first: &[u16; KEYS], d: u16) -> u16
    ensures { result ≡ from_slot x.now first.now d }
{
    let n = fields::size(x);
    (first[d as usize % KEYS]..n)
        .find(|a| fields::ident(x, *a) == d)
        .unwrap_or(n)
}
