// The values that wait, as the bits of a number, the last one lowest.
ghost use Rattle.std.specs.Prelude.{◌≡◌};
ghost use Rattle.judging.specs.Judging.{low, push};

pub(super) fn lowest(stack: u32) -> bool
    ensures { result ≡ low stack }
{
    stack & 1 == 1
}

pub(super) fn pushed(stack: u32, b: bool) -> u32
    ensures { result ≡ push stack b }
{
    (stack << 1) | u32::from(b)
}
