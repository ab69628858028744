// A set of numbers below 4,096, of which the lowest is found in twelve steps: a tree of flags.
#![tactic(auto)]

ghost use Rattle.std.specs.Prelude.{◌≡◌, Bool, cond, ℕ, ◌<◌, eqb};
ghost use Rattle.working_out.specs.Graph.{mark};
ghost use Rattle.lowest_set.specs.Change.{Changes};
ghost use Rattle.lowest_set.specs.Tree.{Holds, without, lowest_of};

// The word of the number i is stored, and every word above it computed again from the two below it.
fn renew(tree: &mut [u32], i: u32, word: u32)
    ensures { (before after : ℕ → Bool) → Holds tree.old before → i < 4096
        → Changes before after i word → Holds tree.new after }
{
    let leaf = 4096 + i as usize;
    logic::put(tree, leaf, word);
    let mut p = leaf / 2;
    while 0 < p {
        let left = logic::word_at(tree, 2 * p);
        let right = logic::word_at(tree, 2 * p + 1);
        logic::put(tree, p, left.max(right));
        p /= 2;
    }
}

// The number i is put into the set.
pub fn insert(tree: &mut [u32], i: u32)
    ensures { (members : ℕ → Bool) → Holds tree.old members → i < 4096
        → Holds tree.new (mark members i) }
{
    renew(tree, i, 1);
}

// The number i is taken out of the set.
pub fn remove(tree: &mut [u32], i: u32)
    ensures { (members : ℕ → Bool) → Holds tree.old members → i < 4096
        → Holds tree.new (without members i) }
{
    renew(tree, i, 0);
}

// One child, unless its word is 0; else the other.
fn unless_empty(word: u32, child: u32, other: u32) -> u32
    ensures { result ≡ cond (eqb word 0) other child }
{
    if word == 0 { other } else { child }
}

// The lowest number of the set, if it has one: from the root down, to the left where that word is not 0.
pub fn lowest(tree: &[u32]) -> Option<u32>
    ensures { (members : ℕ → Bool) → Holds tree.now members → result ≡ lowest_of members }
{
    if logic::word_at(tree, 1) == 0 {
        return None;
    }
    let mut p: u32 = 1;
    while p < 4096 {
        let left = 2 * p;
        let right = left + 1;
        p = unless_empty(logic::word_at(tree, left as usize), left, right);
    }
    Some(p - 4096)
}
