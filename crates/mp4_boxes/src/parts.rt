//! Several children of a container at once.

ghost use Rattle.std.specs.Prelude.{◌≡◌};
ghost use Rattle.mp4_codec.specs.Cause.{Gives};
ghost use Rattle.mp4_boxes.specs.Needed.{two_needed, three_needed, four_needed};

use mp4_codec::{Mp4Box, Result, required};

/// Two children that have to be there; `BoxNotFound` for the first that is missing.
#[tactic(auto, unfolding(crate::specs::Needed::two_needed))]
pub fn required_two<A: Mp4Box + Drop, B: Mp4Box + Drop>(
    first: Option<A>,
    second: Option<B>,
) -> Result<(A, B)>
    ensures { Gives (λ all. all) result (two_needed A.KIND B.KIND first second) }
{
    let first = required(first)?;
    let second = required(second)?;
    Ok((first, second))
}

/// Three children that have to be there; `BoxNotFound` for the first that is missing.
#[tactic(auto, unfolding(crate::specs::Needed::three_needed))]
pub fn required_three<A: Mp4Box + Drop, B: Mp4Box + Drop, C: Mp4Box + Drop>(
    first: Option<A>,
    second: Option<B>,
    third: Option<C>,
) -> Result<(A, B, C)>
    ensures { Gives (λ all. all) result (three_needed A.KIND B.KIND C.KIND first second third) }
{
    let first = required(first)?;
    let second = required(second)?;
    let third = required(third)?;
    Ok((first, second, third))
}

/// Four children that have to be there; `BoxNotFound` for the first that is missing.
#[tactic(auto, unfolding(crate::specs::Needed::four_needed))]
pub fn required_four<A, B, C, D>(
    first: Option<A>,
    second: Option<B>,
    third: Option<C>,
    fourth: Option<D>,
) -> Result<(A, B, C, D)>
where
    A: Mp4Box + Drop,
    B: Mp4Box + Drop,
    C: Mp4Box + Drop,
    D: Mp4Box + Drop,
    ensures { Gives (λ all. all) result (four_needed A.KIND B.KIND C.KIND D.KIND first second third fourth) }
{
    let first = required(first)?;
    let second = required(second)?;
    let third = required(third)?;
    let fourth = required(fourth)?;
    Ok((first, second, third, fourth))
}
