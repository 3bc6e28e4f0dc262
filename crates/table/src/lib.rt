// The table of the action kinds, the one place that says what each is: consulted by the field check, the relations and the rules.
#![tactic(auto)]

ghost use Rattle.std.specs.Prelude.{◌≡◌};
ghost use Rattle.model.specs.Kinds.{kind_row};
ghost use Rattle.model.specs.Layout.{sync, read, write};

use fields::kind;
use model::{Class, Kind, KindRow, Objects, Target};

// What an action gives and takes: nothing; the variable or the monitor that is its target, by place; the beginning or the end of a thread, its own or its target.
const GIVES_NONE: Objects = Objects {
    class: Class::NothingGiven,
    own: true,
    placed: false,
};

const TAKES_NONE: Objects = Objects {
    class: Class::NothingTaken,
    own: true,
    placed: false,
};

const ON_VARIABLE: Objects = Objects {
    class: Class::Variable,
    own: false,
    placed: true,
};

const ON_MONITOR: Objects = Objects {
    class: Class::Monitor,
    own: false,
    placed: true,
};

const BEGINNING_OF_TARGET: Objects = Objects {
    class: Class::Beginning,
    own: false,
    placed: false,
};

const OWN_BEGINNING: Objects = Objects {
    class: Class::Beginning,
    own: true,
    placed: false,
};

const OWN_END: Objects = Objects {
    class: Class::End,
    own: true,
    placed: false,
};

const END_OF_TARGET: Objects = Objects {
    class: Class::End,
    own: false,
    placed: false,
};

// What stands for every byte that is no kind; of each kind its row says what differs.
const NO_KIND: KindRow = KindRow {
    target: Target::NoKind,
    volatile: false,
    sync: false,
    read: false,
    write: false,
    gives: GIVES_NONE,
    takes: TAKES_NONE,
};

// Row k is kind k.
static KINDS: [KindRow; 12] = [
    NO_KIND,
    KindRow {
        target: Target::Variable,
        read: true,
        ..NO_KIND
    },
    KindRow {
        target: Target::Variable,
        write: true,
        ..NO_KIND
    },
    KindRow {
        target: Target::Variable,
        volatile: true,
        sync: true,
        read: true,
        takes: ON_VARIABLE,
        ..NO_KIND
    },
    KindRow {
        target: Target::Variable,
        volatile: true,
        sync: true,
        write: true,
        gives: ON_VARIABLE,
        ..NO_KIND
    },
    KindRow {
        target: Target::Monitor,
        sync: true,
        takes: ON_MONITOR,
        ..NO_KIND
    },
    KindRow {
        target: Target::Monitor,
        sync: true,
        gives: ON_MONITOR,
        ..NO_KIND
    },
    KindRow {
        target: Target::Thread,
        sync: true,
        gives: BEGINNING_OF_TARGET,
        ..NO_KIND
    },
    KindRow {
        target: Target::Zero,
        sync: true,
        takes: OWN_BEGINNING,
        ..NO_KIND
    },
    KindRow {
        target: Target::Zero,
        sync: true,
        gives: OWN_END,
        ..NO_KIND
    },
    KindRow {
        target: Target::Thread,
        sync: true,
        takes: END_OF_TARGET,
        ..NO_KIND
    },
    KindRow {
        target: Target::Any,
        ..NO_KIND
    },
];

// The row of kind k. Each arm takes a fixed row, so that what is asked of it comes to a test of the kind, and nothing is loaded.
pub fn row_of(k: u8) -> KindRow
    ensures { result ≡ kind_row k }
{
    match Kind::try_from(k) {
        Ok(Kind::Read) => KINDS[1],
        Ok(Kind::Write) => KINDS[2],
        Ok(Kind::VolatileRead) => KINDS[3],
        Ok(Kind::VolatileWrite) => KINDS[4],
        Ok(Kind::Lock) => KINDS[5],
        Ok(Kind::Unlock) => KINDS[6],
        Ok(Kind::Start) => KINDS[7],
        Ok(Kind::First) => KINDS[8],
        Ok(Kind::Last) => KINDS[9],
        Ok(Kind::Join) => KINDS[10],
        Ok(Kind::External) => KINDS[11],
        Err(_) => KINDS[0],
    }
}

// The same by one load, and by no way that the kind decides: for kinds that follow one another as they please.
fn loaded(k: u8) -> KindRow
    ensures { result ≡ kind_row k }
{
    match Kind::try_from(k) {
        Ok(kind) => KINDS[kind as usize],
        Err(_) => KINDS[0],
    }
}

// What it says of action a.
pub fn sync(x: &[u8], a: u16) -> bool
    ensures { result ≡ sync x.now a }
{
    row_of(kind(x, a)).sync
}

pub fn read(x: &[u8], a: u16) -> bool
    ensures { result ≡ read x.now a }
{
    row_of(kind(x, a)).read
}

pub fn write(x: &[u8], a: u16) -> bool
    ensures { result ≡ write x.now a }
{
    row_of(kind(x, a)).write
}

// What kind k gives, and what it takes.
pub fn gives(k: u8) -> Objects
    ensures { result ≡ (kind_row k).gives }
{
    loaded(k).gives
}

pub fn takes(k: u8) -> Objects
    ensures { result ≡ (kind_row k).takes }
{
    loaded(k).takes
}
