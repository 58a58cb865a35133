// The vocabulary of the definitions, with its laws, and four functions that say its words. Code calls `one_if`; the others stand for the
// edits that hold what the words say.
#![tactic(auto)]

ghost use Rattle.std.specs.Prelude.{◌≡◌, ◌&&◌, ◌||◌, cond, ◌≤◌};
ghost use Rattle.words.specs.Words.{same};

pub fn both(a: bool, b: bool) -> bool
    ensures { result ≡ (a && b) }
{
    a & b
}

// Whether one of two tests holds.
pub fn either(a: bool, b: bool) -> bool
    ensures { result ≡ (a || b) }
{
    a | b
}

// What a test adds to a count.
pub fn one_if(b: bool) -> u32
    ensures { (result ≡ cond b 1 0) × (result ≤ 1) }
{
    u32::from(b)
}

// Two ids are the same.
pub fn same_id(a: i32, b: i32) -> bool
    ensures { result ≡ same a b }
{
    a == b
}
