// Sets of numbers as words: number i is binary bit i % 64 of word i / 64. Every function takes any number of words, and none of them
// asks anything of its caller. Each contract gives the result and the later words outright; what that says of members stands in
// specs/Promises.
#![tactic(auto)]

ghost use Rattle.std.specs.Prelude.{◌≡◌, ◌*◌, ◌%◌, ◌^◌, min, length};
ghost use Rattle.bitset.specs.Set.{contains, members_below, members, inserted, union, difference, Listed};

// Is i a member?
pub fn has(ws: &[u64], i: usize) -> bool
    ensures { result ≡ contains ws.now i }
{
    let k = i / 64;
    k < ws.len() && (ws[k] >> (i % 64)) % 2 == 1
}

// The word whose one bit is that of i.
fn single(i: usize) -> u64
    ensures { result ≡ 2 ^ (i % 64) }
{
    1 << (i % 64)
}

// Makes i a member; where there is no word for it, nothing changes.
pub fn insert(ws: &mut [u64], i: usize)
    ensures { ws.new ≡ inserted ws.old i }
{
    let k = i / 64;
    if k < ws.len() {
        ws[k] |= single(i);
    }
}

// Makes the members of vs members of ws, as far as ws has words for them. By the words' places here and in `subtract`: of what
// `ws.iter_mut().zip(vs)` leaves in ws a proof knows the length alone.
pub fn unite(ws: &mut [u64], vs: &[u64])
    ensures { ws.new ≡ union ws.old vs.now }
{
    for k in 0..ws.len().min(vs.len()) {
        ws[k] |= vs[k];
    }
}

// Takes the members of vs out of ws.
pub fn subtract(ws: &mut [u64], vs: &[u64])
    ensures { ws.new ≡ difference ws.old vs.now }
{
    for k in 0..ws.len().min(vs.len()) {
        ws[k] -= ws[k] & vs[k];
    }
}

// How many members there are. A count of 2^64 or more, which takes 2^58 words, wraps.
pub fn size(ws: &[u64]) -> usize
    ensures { result ≡ length (members ws.now) % 2 ^ 64 }
{
    ws.iter()
        .fold(0, |n: usize, w| n.wrapping_add(w.count_ones() as usize))
}

// How many members lie below i: the place of i among the members, counted from 0.
pub fn rank(ws: &[u64], i: usize) -> usize
    ensures { result ≡ length (members_below ws.now i) }
{
    let k = i / 64;
    if k < ws.len() {
        size(&ws[..k]) + (ws[k] & (single(i) - 1)).count_ones() as usize
    } else {
        size(ws)
    }
}

// The end of the numbers below n for which there are words.
fn end(ws: &[u64], n: usize) -> usize
    ensures { result ≡ min n (64 * length ws.now) }
{
    if n / 64 < ws.len() { n } else { 64 * ws.len() }
}

// Writes the members below n, rising, as many as fit, and returns how many were written. What stands after them stays.
pub fn list(ws: &[u64], n: usize, out: &mut [usize]) -> usize
    ensures { Listed (members_below ws.now n) out.old out.new result }
{
    let mut r = 0;
    for i in 0..end(ws, n) {
        if r == out.len() {
            return r;
        }
        if has(ws, i) {
            out[r] = i;
            r += 1;
        }
    }
    r
}
