// The calls of an object in memory that are to fail.
ghost use Rattle.std.specs.Prelude.{◌≡◌, ◌+◌, is_some, cond, find, ◌==◌};
ghost use Rattle.terrain_base.specs.Fail.{fail_at, failed_of, call_after};

/// A call that fails.
#[derive(Clone, Copy, Debug, PartialEq, Eq)]
pub struct Fail {
    /// Its number, from 0, among all calls on the object.
    pub call: u64,
    /// Whether it takes effect all the same.
    pub applied: bool,
}

// The first entry for the call of this number.
fn entry_for(fails: &[Fail], number: u64) -> Option<Fail>
    ensures { result ≡ find (λ fail. fail.call == number) fails.now }
{
    fails.iter().copied().find(|fail| fail.call == number)
}

// Counts a call, and gives its entry if it fails.
pub(crate) fn count_call(fails: &[Fail], calls: &mut u64) -> Option<Fail>
    ensures gives { result ≡ fail_at fails.now calls.old }
    ensures counts { calls.new ≡ call_after calls.old }
    ensures failed { failed_of fails.now calls.new ≡ failed_of fails.now calls.old + cond (is_some result) 1 0 }
{
    let number = *calls;
    if number == u64::MAX {
        return None;
    }
    *calls = number + 1;
    entry_for(fails, number)
}
