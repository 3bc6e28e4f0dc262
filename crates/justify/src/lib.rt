// Rules 21 to 29: the committing sequence, for one i. e is section 0 of the record r and f section i.
#![tactic(auto)]

mod found;
mod given;
mod pair;
mod row;
mod single;
mod step;

ghost use Rattle.std.specs.Prelude.{◌≡◌, ◌≤◌};
ghost use Rattle.model.specs.Limits.{max_actions};
ghost use Rattle.model.specs.Layout.{section, size};
ghost use Rattle.model.specs.Answers.{checked};
ghost use Rattle.model.specs.WorkArea.{shown};
ghost use Rattle.model.specs.Justified.{committing};
ghost use Rattle.positions.specs.Limit.{limited};

use fields::{ident, size};
use found::{least_commits, table};
use model::{Answer, MAX_ACTIONS};
use positions::firsts::{Key, firsts};
use positions::idents::position_of;
use record::section;
use step::Step;

// The first rule that is broken.
fn in_order(s: &Step<'_>) -> Result<(), Answer>
    ensures { result ≡ checked (committing (shown s.now.e_part.now) (shown s.now.f_part.now) s.now.r.now s.now.i) }
{
    s.rule21()?;
    s.rule22()?;
    s.rule23()?;
    s.rule24()?;
    s.rule25()?;
    s.rule26()?;
    s.rule27()?;
    s.rule28()?;
    s.rule29()
}

// Finds what the rules are asked with, and asks them.
fn with_tables(
    r: &[u8],
    e: &[u8],
    f: &[u8],
    e_part: &[u64],
    f_part: &[u64],
    i: u8,
) -> Result<(), Answer>
    requires { (e.now ≡ section r.now 0) × (f.now ≡ section r.now i) × (size e.now ≤ max_actions) × (size f.now ≤ max_actions) }
    ensures { result ≡ checked (committing (shown e_part.now) (shown f_part.now) r.now i) }
{
    let e_firsts = firsts(e, Key::Ident);
    let f_firsts = firsts(f, Key::Ident);
    let twins = table(size(e), |a| position_of(f, &f_firsts, ident(e, a)));
    let least = least_commits(e, &e_firsts);
    in_order(&Step {
        r,
        e,
        f,
        e_part,
        f_part,
        e_firsts: &e_firsts,
        f_firsts: &f_firsts,
        twins: &twins,
        least: &least,
        i,
    })
}

// 21 to 29 for i, where the words of happens-before of sections 0 and i are `e_part` and `f_part`. A section over the limit is in no record that
// isn't refused, and passes.
pub fn committing(r: &[u8], e_part: &[u64], f_part: &[u64], i: u8) -> Result<(), Answer>
    ensures { result ≡ checked (limited (section r.now 0) (limited (section r.now i) (committing (shown e_part.now) (shown f_part.now) r.now i))) }
{
    let e = section(r, 0);
    let f = section(r, i);
    if size(e) as usize > MAX_ACTIONS {
        return Ok(());
    }
    if size(f) as usize > MAX_ACTIONS {
        return Ok(());
    }
    with_tables(r, e, f, e_part, f_part, i)
}
