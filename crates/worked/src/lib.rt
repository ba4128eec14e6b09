// The worked examples of the definitions.
#![tactic(auto)]

ghost use Rattle.std.specs.Prelude.{◌≡◌, true, length};
ghost use Rattle.worked.specs.Examples.{agree, examples};

// How many examples there are; the definitions give what each expects.
pub fn worked() -> u8
    ensures computed { agree examples ≡ true }
    ensures count { result ≡ length examples }
{
    55
}
