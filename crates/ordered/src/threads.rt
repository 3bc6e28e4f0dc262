// 14, the thread rules.
ghost use Rattle.std.specs.Prelude.{◌≡◌, ◌≤◌, ◌<◌};
ghost use Rattle.model.specs.Limits.{max_actions};
ghost use Rattle.model.specs.Layout.{size};
ghost use Rattle.model.specs.Search.{found, position};
ghost use Rattle.model.specs.Rules.{begun, misstarted, misjoined, broken14};
ghost use Rattle.positions.specs.Lists.{positions};
ghost use Rattle.positions.specs.Firsts.{firsts};
ghost use Rattle.positions.specs.declared.firsts.Key.TheVariants.{Thread, Start};
ghost use Rattle.ordered.specs.Threads.{Lasts, ending};

use answers::NONE;
use model::Kind;
use positions::firsts::{KEYS, Key, firsts};
use positions::lists;

// The last action of each thread; 0 where it has none.
fn lasts(x: &[u8]) -> [u16; KEYS]
    ensures { Lasts x.now result }
{
    let mut last = [0u16; KEYS];
    for b in 0..fields::size(x) {
        last[fields::thread(x, b) as usize] = b;
    }
    last
}

// What is kept of the threads of a section: the first and the last action of each, the first start of each, and the actions of kind 9.
#[derive(Drop)]
struct Threads<'a> {
    x: &'a [u8],
    first: &'a [u16; KEYS],
    last: &'a [u16; KEYS],
    start: &'a [u16; KEYS],
    ends: &'a [u16],
    ghost limited: { size x.now ≤ max_actions },
    ghost have_first: { first.now ≡ firsts x.now Thread },
    ghost have_last: { Lasts x.now last.now },
    ghost have_start: { start.now ≡ firsts x.now Start },
    ghost have_ends: { ends.now ≡ positions (ending x.now) (size x.now) },
}

impl<'a> Threads<'a> {
    // The target of the start a has actions, and its first isn't a first action with a larger place.
    fn begun(&self, a: u16) -> bool
        ensures { result ≡ begun self.now.x.now a }
    {
        let b = self.first[fields::target(self.x, a) as usize];
        b != NONE
            && (fields::kind(self.x, b) != Kind::First as u8
                || fields::place(self.x, b) <= fields::place(self.x, a))
    }

    fn misstarted(&self, a: u16) -> bool
        requires { a < size self.now.x.now }
        ensures { result ≡ misstarted self.now.x.now a }
    {
        let target = fields::target(self.x, a);
        target == fields::thread(self.x, a) || self.start[target as usize] < a || self.begun(a)
    }

    fn misjoined(&self, a: u16) -> bool
        ensures { result ≡ misjoined self.now.x.now a }
    {
        let target = fields::target(self.x, a);
        let place = fields::place(self.x, a);
        !self.ends.iter().any(|b| fields::thread(self.x, *b) == target
            && fields::place(self.x, *b) < place)
    }

    fn broken14(&self, a: u16) -> bool
        requires { a < size self.now.x.now }
        ensures { result ≡ broken14 self.now.x.now a }
    {
        let thread = fields::thread(self.x, a) as usize;
        let Ok(kind) = Kind::try_from(fields::kind(self.x, a)) else {
            return false;
        };
        match kind {
            Kind::First => self.first[thread] < a,
            Kind::Last => a < self.last[thread],
            Kind::Start => self.misstarted(a),
            Kind::Join => self.misjoined(a),
            _ => false,
        }
    }
}

pub(crate) fn first14(x: &[u8]) -> Option<u16>
    requires { size x.now ≤ max_actions }
    ensures { result ≡ position (found (size x.now) (broken14 x.now)) }
{
    let ends = lists::listed(x, lists::LASTS);
    let threads = Threads {
        x,
        first: &firsts(x, Key::Thread),
        last: &lasts(x),
        start: &firsts(x, Key::Start),
        ends: ends.as_slice(),
    };
    (0..fields::size(x)).find(|a| threads.broken14(*a))
}
