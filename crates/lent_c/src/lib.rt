// The three questions for C, where the caller lends the words and the list.
#![tactic(auto)]

ghost use Rattle.std.specs.Prelude.{◌≡◌, length};
ghost use Rattle.model.specs.Answers.{packed};
ghost use Rattle.model.specs.Questions.{verdict, verdict_words, race, race_words, order, order_words, order_list};

#[unsafe(no_mangle)]
pub extern "C" fn lent_verdict(record: &[u8], work: &mut [u64]) -> u64
    ensures answer { result ≡ packed (verdict «record».now (length work.old)) }
    ensures words { work.new ≡ verdict_words «record».now work.old }
{
    lent::lent_verdict(record, work)
}

#[unsafe(no_mangle)]
pub extern "C" fn lent_race(record: &[u8], work: &mut [u64]) -> u64
    ensures answer { result ≡ packed (race «record».now (length work.old)) }
    ensures words { work.new ≡ race_words «record».now work.old }
{
    lent::lent_race(record, work)
}

#[unsafe(no_mangle)]
pub extern "C" fn lent_order(record: &[u8], work: &mut [u64], list: &mut [u16]) -> u64
    ensures answer { result ≡ packed (order «record».now (length work.old) (length list.old)) }
    ensures words { work.new ≡ order_words «record».now work.old (length list.old) }
    ensures positions { list.new ≡ order_list «record».now (length work.old) list.old }
{
    lent::lent_order(record, work, list)
}
