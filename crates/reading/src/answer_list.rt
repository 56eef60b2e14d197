// The answer lists: whether they have room, and how they are filled.
ghost use Rattle.std.specs.Prelude.{◌++◌, ◌≡◌, ◌≤◌, length, drop};
ghost use Rattle.reading.specs.Answers.{Answered, rooms_check, three_check, AnsweredThree};

use model::Refusal;
use validate::{check_room, same_length};

// The values come to the front of the answer list, the surplus entries stay.
fn fill(values: &[u32], answers: &mut [u32])
    requires { length values.now ≤ length answers.old }
    ensures { answers.new ≡ values.now ++ drop (length values.now) answers.old }
{
    answers[..values.len()].copy_from_slice(values);
}

// 2 for one answer list, or the list filled.
pub fn answer(values: &[u32], answers: &mut [u32]) -> Result<usize, Refusal>
    ensures { Answered values.now answers.old result answers.new }
{
    check_room(values.len(), answers)?;
    fill(values, answers);
    Ok(values.len())
}

// 2 for three answer lists.
#[tactic(auto, unfolding(crate::specs::Answers::rooms_check, model::specs::Refusal::or_else))]
fn check_rooms(count: usize, first: &[u32], second: &[u32], third: &[u32]) -> Result<(), Refusal>
    ensures { result ≡ rooms_check count first.now second.now third.now }
{
    check_room(count, first)?;
    check_room(count, second)?;
    check_room(count, third)
}

// 2 for three lists of values that differ in length, then for the answer lists.
#[tactic(auto, unfolding(crate::specs::Answers::three_check, model::specs::Refusal::or_else))]
fn check_three(
    xs: &[u32],
    ys: &[u32],
    zs: &[u32],
    first: &[u32],
    second: &[u32],
    third: &[u32],
) -> Result<(), Refusal>
    ensures { result ≡ three_check xs.now ys.now zs.now first.now second.now third.now }
{
    same_length(ys, xs)?;
    same_length(zs, xs)?;
    check_rooms(xs.len(), first, second, third)
}

// 2, or three answer lists filled.
pub fn answer_three(
    xs: &[u32],
    ys: &[u32],
    zs: &[u32],
    first: &mut [u32],
    second: &mut [u32],
    third: &mut [u32],
) -> Result<(), Refusal>
    ensures { AnsweredThree xs.now ys.now zs.now first.old second.old third.old result first.new second.new third.new }
{
    check_three(xs, ys, zs, first, second, third)?;
    fill(xs, first);
    fill(ys, second);
    fill(zs, third);
    Ok(())
}
