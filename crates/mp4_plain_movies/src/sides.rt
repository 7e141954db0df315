//! Keys for what is generic over keys.

ghost use Rattle.std.specs.Prelude.{[], ◌∷◌, refl};
ghost use Rattle.mp4_plain_movies.specs.declared.sides.Side.TheVariants.{North, East, South, West};

use mp4_codec::Key;

/// A key.
#[derive(Clone, Copy, Debug, PartialEq, Eq, Hash)]
pub enum Side {
    North,
    East,
    South,
    West,
}

impl Key for Side {
    ghost all = { North ∷ East ∷ South ∷ West ∷ [] };

    ghost is_listed = { elim [ North ↦ refl | East ↦ refl | South ↦ refl | West ↦ refl ] };

    ghost listed_once = { refl };

    fn all() -> &'static [Side] {
        &[Side::North, Side::East, Side::South, Side::West]
    }
}
