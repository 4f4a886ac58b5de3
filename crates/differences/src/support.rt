// The choices of the rows of a difference that have a partner in the other row.
ghost use Rattle.std.specs.Prelude.{◌≡◌, true, slice_index};
ghost use Rattle.rows.specs.Choices.{Kept};
ghost use Rattle.differences.specs.Checks.{in_bounds};
ghost use Rattle.differences.specs.Differences.{relates};
ghost use Rattle.differences.specs.Partners.{Finds};

use crate::difference::{Difference, Relation};
use crate::partner::{has, has_another, has_at_least, has_at_most, remainders};
use rows::walk::keep_by;

// The choices x of the first row and the choices y of the second that relate to some choice of the other, by place.
pub(crate) fn both_sides(difference: Difference, xs: u64, ys: u64) -> [u64; 2]
    requires { in_bounds difference ≡ true }
    ensures of_x { Kept (λ x. Finds (λ y. relates difference.relation difference.offset x y) ys) xs (slice_index result 0) }
    ensures of_y { Kept (λ y. Finds (λ x. relates difference.relation difference.offset x y) xs) ys (slice_index result 1) }
{
    let offset = i64::from(difference.offset);
    match difference.relation {
        Relation::Equal => [
            keep_by(xs, |x| has(ys, i64::from(x) + offset)),
            keep_by(ys, |y| has(xs, i64::from(y) - offset)),
        ],
        Relation::Unequal => [
            keep_by(xs, |x| has_another(ys, i64::from(x) + offset)),
            keep_by(ys, |y| has_another(xs, i64::from(y) - offset)),
        ],
        Relation::AtMost => [
            keep_by(xs, |x| has_at_least(ys, i64::from(x) + offset)),
            keep_by(ys, |y| has_at_most(xs, i64::from(y) - offset)),
        ],
        Relation::Congruent { modulus } => {
            let of_xs = remainders(xs, modulus);
            let of_ys = remainders(ys, modulus);
            let modulus = i64::from(modulus);
            [
                keep_by(
                    xs,
                    |x| has(of_ys, (i64::from(x) + offset).rem_euclid(modulus)),
                ),
                keep_by(
                    ys,
                    |y| has(of_xs, (i64::from(y) - offset).rem_euclid(modulus)),
                ),
            ]
        }
    }
}
