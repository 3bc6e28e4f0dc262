// 13, the monitor rule.
ghost use Rattle.std.specs.Prelude.{◌≡◌, ◌≤◌};
ghost use Rattle.model.specs.Limits.{max_actions};
ghost use Rattle.model.specs.Layout.{size};
ghost use Rattle.model.specs.Search.{found, position};
ghost use Rattle.model.specs.Rules.{held, least, broken13};
ghost use Rattle.positions.specs.Lists.{positions};
ghost use Rattle.ordered.specs.Monitors.{monitoring, admits, counted};

use model::Kind;
use positions::lists;

// b is on the monitor at a smaller place, by the thread, or by anyone where none is named.
fn counted(x: &[u8], monitor: u8, place: u16, by: Option<u8>, b: u16) -> bool
    ensures { result ≡ counted x.now monitor place by b }
{
    fields::target(x, b) == monitor
        && fields::place(x, b) < place
        && by.is_none_or(|thread| fields::thread(x, b) == thread)
}

// Before a's place its monitor is held by the thread, or by anyone where none is named. The list has the locks and the unlocks.
fn held(x: &[u8], list: &[u16], by: Option<u8>, a: u16) -> bool
    requires { list.now ≡ positions (monitoring x.now) (size x.now) }
    ensures { result ≡ held x.now a (admits by) }
{
    let monitor = fields::target(x, a);
    let place = fields::place(x, a);
    let mut locks = 0usize;
    let mut unlocks = 0usize;
    for b in list {
        if counted(x, monitor, place, by, *b) {
            if fields::kind(x, *b) == Kind::Lock as u8 {
                locks += 1;
            } else {
                unlocks += 1;
            }
        }
    }
    unlocks < locks
}

fn broken13(x: &[u8], list: &[u16], a: u16) -> bool
    requires { list.now ≡ positions (monitoring x.now) (size x.now) }
    ensures { result ≡ broken13 x.now a }
{
    let Ok(kind) = Kind::try_from(fields::kind(x, a)) else {
        return false;
    };
    let own = Some(fields::thread(x, a));
    match kind {
        Kind::Lock => held(x, list, None, a),
        Kind::Unlock => !held(x, list, own, a),
        _ => false,
    }
}

// The broken action of least place, and the first of those, in one pass.
pub(crate) fn least13(x: &[u8]) -> Option<u16>
    requires { size x.now ≤ max_actions }
    ensures { result ≡ position (found (size x.now) (least x.now (broken13 x.now))) }
{
    let listed = lists::listed(x, lists::LOCKS);
    let list = listed.as_slice();
    let mut best = None;
    for a in 0..fields::size(x) {
        if best.is_none_or(|b| fields::place(x, a) < fields::place(x, b)) && broken13(x, list, a) {
            best = Some(a);
        }
    }
    best
}
