// A cursor over rising item numbers: those that are left.

ghost use Rattle.std.specs.Prelude.{◌≡◌};
ghost use Rattle.ink_list.specs.Steps.{drop_below, head_is};

// What is left from the first number on that is not below x.
#[tactic(auto, using(crate::proofs::SiftLaws::below_stop, crate::proofs::SiftLaws::below_end))]
pub fn skip_below(is: &[u16], x: u16) -> &[u16]
    ensures { result.now ≡ drop_below x is.now }
{
    let mut left = is;
    while let Some((y, rest)) = left.split_first() {
        if x <= *y {
            return left;
        }
        left = rest;
    }
    left
}

// Does x stand first.
pub fn stands(is: &[u16], x: u16) -> bool
    ensures { result ≡ head_is x is.now }
{
    is.first() == Some(&x)
}
