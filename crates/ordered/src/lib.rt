// Rules 11 to 14 on one section x, which ask for no happens-before. Positions are below the section's count; a field past the section's end reads as 0, so
// every x has its answer.
#![tactic(auto)]

mod monitors;
mod order;
mod threads;

ghost use Rattle.std.specs.Prelude.{◌≡◌, ◌≤◌};
ghost use Rattle.model.specs.Limits.{max_actions};
ghost use Rattle.model.specs.Layout.{size};
ghost use Rattle.model.specs.Answers.{checked};
ghost use Rattle.model.specs.Rules.{ordered};
ghost use Rattle.positions.specs.Limit.{limited};

use answers::rule;
use model::{Answer, MAX_ACTIONS};

fn in_order(x: &[u8], s: u8) -> Result<(), Answer>
    requires { size x.now ≤ max_actions }
    ensures { result ≡ checked (ordered s x.now) }
{
    rule(11, s, order::first11(x))?;
    rule(12, s, order::first12(x))?;
    rule(13, s, monitors::least13(x))?;
    rule(14, s, threads::first14(x))
}

// The order, monitor and thread rules, 11 to 14.
pub fn ordered(x: &[u8], s: u8) -> Result<(), Answer>
    ensures { result ≡ checked (limited x.now (ordered s x.now)) }
{
    if fields::size(x) as usize > MAX_ACTIONS {
        return Ok(());
    }
    in_order(x, s)
}
