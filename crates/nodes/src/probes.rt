// Where a word is in the room, or may be put: from its home on, and from the first slot on after the last.
ghost use Rattle.std.specs.Prelude.{◌^◌, ◌≤◌, ◌<◌, length, ◌≢◌};
ghost use Rattle.nodes.specs.Codes.{Reaches};
ghost use Rattle.nodes.specs.Work.{Scanned, Probed};

use super::words::home;

// The first slot of from..to that holds w or is not in use.
fn scan(nodes: &[u64], w: u64, from: usize, to: usize) -> Option<usize>
    requires { (from ≤ to) × (to ≤ length nodes.now) }
    ensures { Scanned nodes.now w from to result }
{
    for s in from..to {
        let x = nodes[s];
        if x == 0 || x == w {
            return Some(s);
        }
    }
    None
}

// The slot that holds w, or else the one where a search for w will find it.
pub fn probe(nodes: &[u64], w: u64) -> Option<usize>
    requires { (w ≢ 0) × (w < 2 ^ 42) × Reaches nodes.now }
    ensures { Probed nodes.now w result }
{
    let n = nodes.len();
    if n == 0 {
        return None;
    }
    let h = home(w, n);
    scan(nodes, w, h, n).or_else(|| scan(nodes, w, 0, h))
}
