// The race of number 31.
ghost use Rattle.std.specs.Prelude.{◌≡◌, not, cond, ◌&&◌, ◌≤◌, drop};
ghost use Rattle.std.specs.List.{find, filter};
ghost use Rattle.model.specs.Limits.{max_actions};
ghost use Rattle.model.specs.Answers.{checked};
ghost use Rattle.model.specs.Layout.{size, write};
ghost use Rattle.model.specs.WorkArea.{shown};
ghost use Rattle.model.specs.Rules.{racing};
ghost use Rattle.rules.specs.Searches.{meets, races, least_pair};

use answers::rule_of_pair;
use model::Answer;
use positions::lists;
use positions::lists::PLAIN;

// Neither happens before the other.
fn unordered(part: &[u64], a: u16, b: u16) -> bool
    ensures { result ≡ (not (shown part.now a b) && not (shown part.now b a)) }
{
    !rows::before(part, a, b) && !rows::before(part, b, a)
}

// The first of the entries that is on a's variable, and not ordered with a.
fn met(x: &[u8], part: &[u64], a: u16, entries: &[u16]) -> Option<u16>
    ensures { result ≡ find (meets (shown part.now) x.now a) entries.now }
{
    let variable = fields::target(x, a);
    entries.iter().copied().find(|b| variable == fields::target(x, *b) && unordered(part, a, *b))
}

// The first of the later plain accesses that races with the plain access a. A read is held against the later writes alone.
fn raced(x: &[u8], part: &[u64], a: u16, later: &[u16], writes: &[u16]) -> Option<u16>
    requires { writes.now ≡ filter (write x.now) later.now }
    ensures { result ≡ find (races (shown part.now) x.now a) later.now }
{
    if table::write(x, a) {
        met(x, part, a, later)
    } else {
        met(x, part, a, writes)
    }
}

// The writes behind the plain access a, of those from a on.
fn behind<'a>(x: &[u8], a: u16, writes: &'a [u16]) -> &'a [u16]
    ensures { result.now ≡ drop (cond (write x.now a) 1 0) writes.now }
{
    match writes.split_first() {
        Some((_, later)) if table::write(x, a) => later,
        _ => writes,
    }
}

// The least pair of plain accesses that races: each is held against those after it. `writes` has those that write.
fn least_pair(x: &[u8], part: &[u64], plain: &[u16], writes: &[u16]) -> Option<(u16, u16)>
    requires { writes.now ≡ filter (write x.now) plain.now }
    ensures { result ≡ least_pair (races (shown part.now) x.now) plain.now }
{
    let mut rest = plain;
    let mut written = writes;
    while let Some((a, later)) = rest.split_first() {
        written = behind(x, *a, written);
        if let Some(b) = raced(x, part, *a, later, written) {
            return Some((*a, b));
        }
        rest = later;
    }
    None
}

// 31, of a section within the limit.
pub(crate) fn race_free(x: &[u8], part: &[u64]) -> Result<(), Answer>
    requires { size x.now ≤ max_actions }
    ensures { result ≡ checked (racing (shown part.now) x.now) }
{
    let plain = lists::listed(x, PLAIN);
    let writes = lists::listed(x, lists::PLAIN_WRITES);
    rule_of_pair(
        31,
        0,
        least_pair(x, part, plain.as_slice(), writes.as_slice()),
    )
}
