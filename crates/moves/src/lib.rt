// Bytes moved in lent memory: a run copied, filled or joined, and what two runs have in common.
// Each contract is a `patch`: a run of places replaced, the rest as it was. No document is known here.
#![tactic(auto)]

ghost use Rattle.std.specs.Prelude.{◌≡◌, ◌+◌, ◌-◌, ◌≤◌, max, min, length, if◌then◌else◌};
ghost use Rattle.std.specs.Int.Bits.{bit_or};
ghost use Rattle.laws.specs.Tests.{covers};
ghost use Rattle.laws.specs.Lists.{at, patch};
ghost use Rattle.moves.specs.Copied.{copied};

// ---- into all of `dst`, from place `to` on: not into a slice of it, since each contract says what of all of `dst` is replaced, as its callers'
// contracts do. Two slices are not zipped: of what is written through a zip of `iter_mut` nothing is known.

// Copies `src` to the places of `dst` from `to` on. Not by `copy_from_slice`: over a length that is not known that is a call of C's
// `memmove`, and the library asks for nothing but `memset`.
pub fn copy(dst: &mut [u8], to: usize, src: &[u8])
    requires { to + length src.now ≤ length dst.old }
    ensures { dst.new ≡ patch to (length src.now) (at src.now) dst.old }
{
    for (k, byte) in src.iter().enumerate() {
        dst[to + k] = *byte;
    }
}

// Puts `v` at the `n` places of `dst` from `to` on. Not by the library's `fill`, which takes a read of the eight-channel module past its 400
// instructions.
pub fn fill(dst: &mut [u8], to: usize, n: usize, v: u8)
    requires { to + n ≤ length dst.old }
    ensures { dst.new ≡ patch to n (λ j. v) dst.old }
{
    let end = to + n;
    for place in &mut dst[to..end] {
        *place = v;
    }
}

// Adds the bits of `src` to the places of `dst` from `to` on.
pub fn join(dst: &mut [u8], to: usize, src: &[u8])
    requires { to + length src.now ≤ length dst.old }
    ensures { dst.new ≡ patch to (length src.now) (λ j. bit_or (at dst.old (to + j)) (at src.now j)) dst.old }
{
    for (k, byte) in src.iter().enumerate() {
        dst[to + k] = dst[to + k] | *byte;
    }
}

// ---- runs of numbers, as of addresses, and what two of them have in common

// `many` numbers in a row from `first` on, none above 255. A run of host addresses and one of places are types of their own in `address`, as
// document 01 has it, and go by this one's `part`.
#[derive(Clone, Copy, Debug, PartialEq, Eq)]
pub struct Run {
    pub first: usize,
    pub many: usize,
    ghost fits: { first + many ≤ 256 },
}

// What of a run another has: how many of its numbers come before it, and how many it is.
#[derive(Clone, Copy, Debug, PartialEq, Eq)]
pub struct Part {
    pub skip: usize,
    pub many: usize,
}

impl Run {
    // What of it `other` has.
    pub fn part(self, other: Run) -> Part
        ensures { (result.skip ≡ max self.first other.first - self.first) × (result.many ≡ min (self.first + self.many) (other.first + other.many) - max self.first other.first) }
    {
        let first = self.first.max(other.first);
        let end = (self.first + self.many).min(other.first + other.many);
        Part {
            skip: first - self.first,
            many: end.saturating_sub(first),
        }
    }
}

// The front of `out` stands for the numbers of `shown`, the places of `src` from `from` on for those of `held`: copies what
// both have. Not a slice of `src`: the contract speaks of the places of all of it, as its callers' do; and `out` comes apart from its run, as in
// `module`'s read.
pub fn copy_part(out: &mut [u8], shown: Run, src: &[u8], from: usize, held: Run)
    requires { (shown.many ≤ length out.old) × (from + held.many ≤ length src.now) }
    ensures { out.new ≡ patch 0 shown.many (λ j. copied src.now from held.first held.many (shown.first + j) (at out.old j)) out.old }
{
    let Part { skip, many } = shown.part(held);
    if many != 0 {
        let start = from + (shown.first + skip - held.first);
        copy(out, skip, &src[start..start + many]);
    }
}

// The places of `dst` from `to` on stand for the numbers of `held`: puts `v` where `run` has one. All of `dst`, as above.
pub fn fill_part(dst: &mut [u8], to: usize, held: Run, run: Run, v: u8)
    requires { to + held.many ≤ length dst.old }
    ensures { dst.new ≡ patch to held.many (λ k. if covers run.first run.many (held.first + k) then v else at dst.old (to + k)) dst.old }
{
    let Part { skip, many } = held.part(run);
    if many != 0 {
        fill(dst, to + skip, many, v);
    }
}
