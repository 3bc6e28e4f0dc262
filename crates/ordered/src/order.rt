// 11 and 12, the order rules.
ghost use Rattle.std.specs.Prelude.{◌≡◌, ◌≤◌, ◌<◌};
ghost use Rattle.model.specs.Limits.{max_actions};
ghost use Rattle.model.specs.Layout.{size, sync};
ghost use Rattle.model.specs.Search.{count, found, position};
ghost use Rattle.model.specs.Rules.{broken11, broken12};
ghost use Rattle.positions.specs.Firsts.{firsts};
ghost use Rattle.positions.specs.declared.firsts.Key.TheVariants.{Place};

use positions::firsts::{KEYS, Key, firsts};
use table::sync;

// The number of synchronization actions.
fn total(x: &[u8]) -> usize
    ensures { result ≡ count (size x.now) (sync x.now) }
{
    (0..fields::size(x)).filter(|b| sync(x, *b)).count()
}

// `total` is the number of synchronization actions, and `places` has the first at each place.
fn broken11(x: &[u8], places: &[u16; KEYS], total: usize, a: u16) -> bool
    requires x_bound { size x.now ≤ max_actions }
    requires a_bound { a < size x.now }
    requires places_value { places.now ≡ firsts x.now Place }
    requires total_value { total ≡ count (size x.now) (sync x.now) }
    ensures { result ≡ broken11 x.now a }
{
    let place = fields::place(x, a) as usize;
    sync(x, a) && (total < place || places[place] < a)
}

pub(crate) fn first11(x: &[u8]) -> Option<u16>
    requires { size x.now ≤ max_actions }
    ensures { result ≡ position (found (size x.now) (broken11 x.now)) }
{
    let total = total(x);
    let places = firsts(x, Key::Place);
    (0..fields::size(x)).find(|a| broken11(x, &places, total, *a))
}

// One pass, which keeps the largest place so far of each thread.
pub(crate) fn first12(x: &[u8]) -> Option<u16>
    ensures { result ≡ position (found (size x.now) (broken12 x.now)) }
{
    let mut largest = [0u16; KEYS];
    for a in 0..fields::size(x) {
        if sync(x, a) {
            let thread = fields::thread(x, a) as usize;
            let place = fields::place(x, a);
            if place < largest[thread] {
                return Some(a);
            }
            largest[thread] = place;
        }
    }
    None
}
