// Program order and synchronizes-with between two actions of a section: what an action gives and takes is what the table says of its kind.
#![tactic(auto)]

ghost use Rattle.std.specs.Prelude.{◌≡◌};
ghost use Rattle.model.specs.Relations.{po, sw};
ghost use Rattle.relations.specs.Objects.{object_of, given, taken, offered, same_object, near, accepts, key};

use fields::{kind, own_or_target, place, target, thread};
use model::Objects;
use table::{gives, takes};

// An object by which actions synchronize: its class by the number that `key` has of it.
#[derive(Clone, Copy)]
pub struct Object {
    pub class: u8,
    pub number: u8,
}

// What an action offers to later ones: its object, and whether they take it at larger places alone.
#[derive(Clone, Copy)]
pub struct Offer {
    pub object: Object,
    pub placed: bool,
    pub place: u16,
}

// The object of a that o tells.
fn object_of(o: Objects, x: &[u8], a: u16) -> Object
    ensures { result ≡ object_of o x.now a }
{
    Object {
        class: o.class as u8,
        number: own_or_target(x, a, o.own),
    }
}

#[tactic(auto, unfolding(crate::specs::Objects::given))]
pub fn given(x: &[u8], a: u16) -> Object
    ensures { result ≡ given x.now a }
{
    object_of(gives(kind(x, a)), x, a)
}

#[tactic(auto, unfolding(crate::specs::Objects::taken))]
pub fn taken(x: &[u8], a: u16) -> Object
    ensures { result ≡ taken x.now a }
{
    object_of(takes(kind(x, a)), x, a)
}

// One number for each object.
pub fn key(o: Object) -> u16
    ensures { result ≡ key o }
{
    256 * (o.class as u16) + o.number as u16
}

#[tactic(auto, unfolding(crate::specs::Objects::offered))]
pub fn offered(x: &[u8], a: u16) -> Offer
    ensures { result ≡ offered x.now a }
{
    let gives = gives(kind(x, a));
    Offer {
        object: object_of(gives, x, a),
        placed: gives.placed,
        place: place(x, a),
    }
}

// Whether the number is that of b's thread or of its target: no other object is one of b's.
fn near(x: &[u8], v: u8, b: u16) -> bool
    ensures { result ≡ near x.now v b }
{
    v == target(x, b) || v == thread(x, b)
}

// Whether b takes the object. Most pairs differ in the number, which is asked first and without the kind, and then in the class.
#[tactic(auto, using(crate::proofs::Objects::far), unfolding(crate::specs::Objects::taken))]
fn is_taken(x: &[u8], o: Object, b: u16) -> bool
    ensures { result ≡ same_object o (taken x.now b) }
{
    if !near(x, o.number, b) {
        return false;
    }
    let takes = takes(kind(x, b));
    o.class == takes.class as u8 && o.number == own_or_target(x, b, takes.own)
}

// Whether b takes what is offered.
#[tactic(auto, unfolding(crate::specs::Objects::accepts))]
pub fn accepts(x: &[u8], w: Offer, b: u16) -> bool
    ensures { result ≡ accepts x.now w b }
{
    is_taken(x, w.object, b) && (!w.placed || w.place < place(x, b))
}

#[tactic(auto, unfolding(model::specs::Relations::po))]
pub fn po(x: &[u8], a: u16, b: u16) -> bool
    ensures { result ≡ po x.now a b }
{
    a < b && thread(x, a) == thread(x, b)
}

#[tactic(auto, using(crate::proofs::Objects::accepts_sw))]
pub fn sw(x: &[u8], a: u16, b: u16) -> bool
    ensures { result ≡ sw x.now a b }
{
    accepts(x, offered(x, a), b)
}
