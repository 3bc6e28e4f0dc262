// The field check: number 6 of one action, under the header of its record. It asks nothing of where the action stands, so a reader of records, a
// writer and a replay may each ask it.
#![tactic(auto)]

ghost use Rattle.std.specs.Prelude.{◌≡◌, ◌&&◌, ltb};
ghost use Rattle.std.specs.Bool.{beq};
ghost use Rattle.model.specs.Layout.{volatile};
ghost use Rattle.model.specs.Refused.{targeted, committed_in, carried, fielded};

use model::{Action, Header, KindRow, Target};
use table::row_of;

// Bit t of the map, which has none from the most variables on.
fn volatile(h: Header, t: u8) -> bool
    ensures { result ≡ volatile h t }
{
    (t as usize) < model::MAX_VARIABLES && (h.map >> t) % 2 == 1
}

// A variable that is volatile exactly when it has to be.
fn variable(h: Header, t: u8, wanted: bool) -> bool
    ensures { result ≡ ltb t h.variables && beq (volatile h t) wanted }
{
    t < h.variables && volatile(h, t) == wanted
}

// Target t of a kind's row k.
#[tactic(auto, unfolding(model::specs::Refused::targeted))]
fn targeted(h: Header, k: KindRow, t: u8) -> bool
    ensures { result ≡ targeted h k t }
{
    match k.target {
        Target::NoKind => false,
        Target::Variable => variable(h, t, k.volatile),
        Target::Monitor => t < h.monitors,
        Target::Thread => t < h.threads,
        Target::Zero => t == 0,
        Target::Any => true,
    }
}

// Commit number c of an action of section s: "section 0: 1 to K, or 0 when K is 0; other sections: 0".
#[tactic(auto, unfolding(model::specs::Refused::committed_in))]
fn committed_in(last: u8, s: u8, c: u8) -> bool
    ensures { result ≡ committed_in last s c }
{
    if s == 0 {
        last.min(1) <= c && c <= last
    } else {
        c == 0
    }
}

// What an action of a kind's row k carries: the write seen in a read alone, the value in a read or a write.
#[tactic(auto, unfolding(model::specs::Refused::carried))]
fn carried(k: KindRow, a: Action) -> bool
    ensures { result ≡ carried k a }
{
    (k.read || a.seen == 0) && (k.read || k.write || a.value == 0)
}

// The fields of an action of section s are as the two tables say.
#[tactic(auto, unfolding(model::specs::Refused::fielded))]
pub fn fielded(h: Header, s: u8, a: Action) -> bool
    ensures { result ≡ fielded h s a }
{
    let k = row_of(a.kind);
    a.ident != 0
        && a.thread < h.threads
        && targeted(h, k, a.target)
        && committed_in(h.justifying, s, a.commit)
        && k.sync == (a.place != 0)
        && carried(k, a)
}
