// Rows of happens-before, asked word by word. A mask is one row: bit b stands for action b.
ghost use Rattle.std.specs.Prelude.{◌≡◌, get_or};
ghost use Rattle.model.specs.Limits.{max_actions};
ghost use Rattle.model.specs.Search.{any};
ghost use Rattle.justify.specs.Row.{differs, shares};

use model::ROW_WORDS;

// Word i; 0 where there is none.
fn word(p: &[u64], i: usize) -> u64
    ensures { result ≡ get_or p.now i 0 }
{
    p.get(i).copied().unwrap_or(0)
}

// Whether p and q show a differently before an action of the mask.
pub(crate) fn differ(p: &[u64], q: &[u64], a: u16, mask: &[u64; ROW_WORDS]) -> bool
    ensures { result ≡ any max_actions (differs p.now q.now mask.now a) }
{
    for j in 0..ROW_WORDS {
        let i = ROW_WORDS * a as usize + j;
        if (word(p, i) ^ word(q, i)) & mask[j] != 0 {
            return true;
        }
    }
    false
}

// Whether p shows a before an action of the mask: whether it differs there from no row.
pub(crate) fn shares(p: &[u64], a: u16, mask: &[u64; ROW_WORDS]) -> bool
    ensures { result ≡ any max_actions (shares p.now mask.now a) }
{
    differ(p, &[], a, mask)
}
