//! How often a timeline runs, and where it stands after some time.
ghost use Rattle.std.specs.Prelude.{◌≡◌, ◌≤◌};
ghost use Rattle.fx_keyframes.specs.Cycles.{is_over, is_turned, last, position};

/// How often a timeline runs, without an end for none, and whether every second cycle runs backwards (JavaFX
/// `cycleCount` and `autoReverse`).
#[derive(Clone, Copy, PartialEq, Eq, Debug)]
pub struct Cycles {
    pub count: Option<u32>,
    pub reverse: bool,
}

/// Has a timeline come to its end after so many milliseconds? A cycle takes `longest`.
pub fn is_over(cycles: Cycles, longest: u32, elapsed: u64) -> bool
    ensures { result ≡ is_over cycles longest elapsed }
{
    match cycles.count {
        Some(count) => u64::from(longest) * u64::from(count) <= elapsed,
        None => false,
    }
}

/// Where in a cycle a timeline stands after so many milliseconds. One without a frame after its start stays there.
#[tactic(auto, unfolding(crate::specs::Cycles::position))]
pub fn position(cycles: Cycles, longest: u32, elapsed: u64) -> u32
    ensures value { result ≡ position cycles longest elapsed }
    ensures within { result ≤ longest }
{
    if longest == 0 {
        return 0;
    }
    if is_over(cycles, longest, elapsed) {
        return last(cycles, longest);
    }
    let reached = (elapsed % u64::from(longest)) as u32;
    if is_turned(cycles, longest, elapsed) {
        longest - reached
    } else {
        reached
    }
}

/// Where a timeline stands at its end.
fn last(cycles: Cycles, longest: u32) -> u32
    ensures value { result ≡ last cycles longest }
    ensures within { result ≤ longest }
{
    match cycles.count {
        Some(count) if cycles.reverse && count % 2 == 0 => 0,
        _ => longest,
    }
}

/// Does it run backwards then?
fn is_turned(cycles: Cycles, longest: u32, elapsed: u64) -> bool
    requires { 1 ≤ longest }
    ensures { result ≡ is_turned cycles longest elapsed }
{
    cycles.reverse && elapsed / u64::from(longest) % 2 == 1
}
