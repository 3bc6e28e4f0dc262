// The section check: numbers 6 and 7 on the bytes of one section.
#![tactic(auto)]

ghost use Rattle.std.specs.Prelude.{◌≡◌};
ghost use Rattle.model.specs.Search.{found, position};
ghost use Rattle.model.specs.Answers.{checked, rule};
ghost use Rattle.model.specs.Layout.{size};
ghost use Rattle.model.specs.Refused.{misfielded, met};

use answers::rule;
use model::{Answer, Header};

// The map of the identifiers met: a row for every 128 of the 65536 numbers.
const ROW: u16 = 128;

const MAP: usize = model::ROW_WORDS * 512;

// Whether action a isn't as the two tables say, or its unused bytes aren't zero.
#[tactic(auto, unfolding(model::specs::Refused::misfielded))]
fn is_misfielded(h: Header, s: u8, x: &[u8], a: u16) -> bool
    ensures { result ≡ misfielded h s x.now a }
{
    fields::unused(x, a) != 0 || !action::fielded(h, s, fields::action(x, a))
}

fn first_misfielded(h: Header, s: u8, x: &[u8]) -> Option<u16>
    ensures { result ≡ position (found (size x.now) (misfielded h s x.now)) }
{
    (0..fields::size(x)).find(|a| is_misfielded(h, s, x, *a))
}

// The first action whose identifier was already met, by a map of those met.
fn first_repeated(x: &[u8]) -> Option<u16>
    ensures { result ≡ position (found (size x.now) (met x.now)) }
{
    let mut map = [0u64; MAP];
    for a in 0..fields::size(x) {
        let d = fields::ident(x, a);
        if rows::get(&map, d / ROW, d % ROW) {
            return Some(a);
        }
        rows::set(&mut map, d / ROW, d % ROW);
    }
    None
}

// Number 6 for section s, whose bytes are x.
#[tactic(auto, using(model::proofs::Checks::checked_rule))]
pub fn misfielded(h: Header, s: u8, x: &[u8]) -> Result<(), Answer>
    ensures { result ≡ checked (rule 6 s (size x.now) (misfielded h s x.now)) }
{
    rule(6, s, first_misfielded(h, s, x))
}

// Number 7.
#[tactic(auto, using(model::proofs::Checks::checked_rule))]
pub fn repeated(s: u8, x: &[u8]) -> Result<(), Answer>
    ensures { result ≡ checked (rule 7 s (size x.now) (met x.now)) }
{
    rule(7, s, first_repeated(x))
}
