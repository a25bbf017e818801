// The memo room: the results of joins, one word each. A word is 0, or packs the operation, the two codes, the smaller one first, and the result. The
// functions ask for a memo of some words; `Rooms` itself takes one of any length, none too.
ghost use Rattle.std.specs.Prelude.{◌≡◌, ◌^◌, ◌<◌, length};
ghost use Rattle.nodes.specs.Promise as promise;
ghost use Rattle.nodes.specs.Work.{Recalled, Remembered};

use super::Node;
use super::connective::Connective;
use super::words::home;

// What a join of two codes goes by. OR and AND commute, so the order of the two doesn't count: the smaller code is first.
fn key<C: Connective>(a: Node, b: Node) -> u64
    requires { (a.0 < 2 ^ 17) × (b.0 < 2 ^ 17) }
    ensures { result ≡ promise.key C.or a.0 b.0 }
{
    ((a.0.min(b.0) << 17) | a.0.max(b.0)) | C::mark()
}

// The join of two codes, if the memo has it.
pub fn recall<C: Connective>(memo: &[u64], a: Node, b: Node) -> Option<Node>
    requires { (0 < length memo.now) × (a.0 < 2 ^ 17) × (b.0 < 2 ^ 17) }
    ensures { Recalled memo.now C.or a.0 b.0 result }
{
    let k = key::<C>(a, b);
    let i = home(k, memo.len());
    let w = memo[i];
    if w >> 17 == k {
        return Some(Node(w & 0x1_ffff));
    }
    None
}

// Notes that r is the join of a and b, in place of what the memo had there.
pub fn remember<C: Connective>(memo: &mut [u64], a: Node, b: Node, r: Node)
    requires { (0 < length memo.old) × (a.0 < 2 ^ 17) × (b.0 < 2 ^ 17) × (r.0 < 2 ^ 17) }
    ensures { Remembered memo.old memo.new C.or a.0 b.0 r.0 }
{
    let k = key::<C>(a, b);
    let i = home(k, memo.len());
    memo[i] = (k << 17) | r.0;
}
