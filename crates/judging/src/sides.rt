// Where a clock stands to a constant.
ghost use Rattle.std.specs.Prelude.{◌≡◌};
ghost use Rattle.judging.specs.Orders.{side_by};

use std::cmp::Ordering;

#[derive(Clone, Copy, Debug, PartialEq, Eq)]
pub enum Side {
    Below,
    At,
    Above,
}

// The side of a clock whose value compares so with the constant.
impl From<Ordering> for Side {
    ghost from_gives = { λ o s. s ≡ side_by o };

    fn from(order: Ordering) -> Side {
        match order {
            Ordering::Less => Side::Below,
            Ordering::Equal => Side::At,
            Ordering::Greater => Side::Above,
        }
    }
}
