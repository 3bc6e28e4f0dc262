// The host's two calls for C.
#![tactic(auto)]

ghost use Rattle.std.specs.Prelude.{◌≡◌};
ghost use Rattle.model.specs.Answers.{packed};
ghost use Rattle.model.specs.Questions.{verdict, race};

#[unsafe(no_mangle)]
pub extern "C" fn jxe_verdict(record: &[u8]) -> u64
    ensures { result ≡ packed (verdict «record».now 2304) }
{
    jmm::jxe_verdict(record)
}

#[unsafe(no_mangle)]
pub extern "C" fn jxe_race(record: &[u8]) -> u64
    ensures { result ≡ packed (race «record».now 256) }
{
    jmm::jxe_race(record)
}
