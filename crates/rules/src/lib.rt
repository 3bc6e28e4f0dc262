// Rules 15 to 18 on one section x and its race, number 31, and the chain 11 to 18, for which `ordered` has the first four. Positions are below the section's
// count; a field past the section's end reads as 0, so every x has its answer.
#![tactic(auto)]

mod consistency;
mod races;
mod seen;

ghost use Rattle.std.specs.Prelude.{◌≡◌};
ghost use Rattle.model.specs.Answers.{checked};
ghost use Rattle.model.specs.Layout.{size};
ghost use Rattle.model.specs.WorkArea.{shown};
ghost use Rattle.model.specs.Rules.{well_formed, racing};
ghost use Rattle.positions.specs.Limit.{limited};

use crate::seen::Found;
use model::{Answer, MAX_ACTIONS};

// 11 to 18 on section s, whose bytes are x and whose happens-before stands in its part.
pub fn well_formed(x: &[u8], part: &[u64], s: u8) -> Result<(), Answer>
    ensures { result ≡ checked (limited x.now (well_formed (shown part.now) s x.now)) }
{
    if fields::size(x) as usize > MAX_ACTIONS {
        return Ok(());
    }
    ordered::ordered(x, s)?;
    Found::new(x, part).consistent(s)
}

// 31: the least pair of positions that races.
pub fn racing(x: &[u8], part: &[u64]) -> Result<(), Answer>
    ensures { result ≡ checked (limited x.now (racing (shown part.now) x.now)) }
{
    if fields::size(x) as usize > MAX_ACTIONS {
        return Ok(());
    }
    races::race_free(x, part)
}
