// The first number of a range that passes a test.
ghost use Rattle.std.specs.Prelude.{◌≡◌, ℕ, true, false, ◌+◌, ◌<◌, ◌≤◌};
ghost use Rattle.awaited.specs.First.{First, Passed, AllFail, OnePasses};

// From `from` up to `to`; where none passes, `to`, or `from` where that is past it.
#[tactic(auto, using(crate::proofs::Turns::turns))]
pub fn first<F: Fn(usize) -> bool>(from: usize, to: usize, test: F) -> usize
    requires callable { (r : ℕ) → r < to → F.pre test r }
    ensures { First (F.post test) from to result }
{
    for r in from..to {
        if test(r) {
            return r;
        }
    }
    to.max(from)
}

// Does one of the four from r on pass?
#[tactic(auto, using(crate::proofs::Turns::four_fail, crate::proofs::Turns::one_passes))]
fn one_of_four<F: Fn(usize) -> bool>(r: usize, test: &F) -> bool
    requires callable { (i : ℕ) → i < r + 4 → F.pre test.now i }
    requires room { r < 16384 }
    ensures none { result ≡ false → AllFail (F.post test.now) r (r + 4) }
    ensures one { result ≡ true → OnePasses (F.post test.now) r (r + 4) }
{
    test(r) || test(r + 1) || test(r + 2) || test(r + 3)
}

// Passes over those that fail, four at a time, where most do and the loop costs as much as the test: none before the answer passes.
#[tactic(auto, using(crate::proofs::Turns::leaps))]
pub(crate) fn leap<F: Fn(usize) -> bool>(from: usize, to: usize, test: F) -> usize
    requires callable { (r : ℕ) → r < to → F.pre test r }
    requires forward { from ≤ to }
    requires room { to < 16384 }
    ensures { Passed (F.post test) from to result }
{
    let mut r = from;
    // a hand count: where it stops is the answer, which `(from..to).step_by(4)` would have kept beside it
    while 4 <= to - r {
        if one_of_four(r, &test) {
            return r;
        }
        r += 4;
    }
    r
}
