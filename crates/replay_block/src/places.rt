// Where a block stands in the plane. Before anything is stored each place of the plane holds its own number.
ghost use Rattle.std.specs.Prelude.{◌<◌, IfSome};

use picture::{BLOCKS, PLANE};
use replay_lists::cases::Fields;
use replay_lists::stored::same;

fn number_of(place: usize) -> f32 {
    f32::from((place % PLANE) as u16)
}

// Value k of the block that is stored, which no place holds before.
fn new_value(k: usize) -> f32 {
    -1.0 - number_of(k)
}

fn fill<F: Fn(usize) -> f32>(values: &mut [f32], value_at: F)
    requires { F.IsAlwaysCallable value_at }
{
    for (place, value) in values.iter_mut().enumerate() {
        *value = value_at(place);
    }
}

// The number of a block.
fn block_number(case: &mut Fields<'_>) -> Option<usize>
    ensures { IfSome result (λ b. b < 1024) }
{
    let b = usize::from(u16::from_be_bytes(case.array()?));
    if b < BLOCKS { Some(b) } else { None }
}

// A block's number, and its values.
pub fn loads(mut case: Fields<'_>) -> Option<bool> {
    let b = block_number(&mut case)?;
    let expected = case.array::<256>()?;
    let mut plane = [0.0; PLANE];
    fill(&mut plane, number_of);
    Some(same(&block::load_block(&plane, b), &expected))
}

// A block's number, and the places of its values.
pub fn stores(mut case: Fields<'_>) -> Option<bool> {
    let b = block_number(&mut case)?;
    let expected = case.array::<128>()?;
    let mut plane = [0.0; PLANE];
    fill(&mut plane, number_of);
    let mut values = [0.0; 64];
    fill(&mut values, new_value);
    block::store_block(&mut plane, b, &values);
    // A sum of bits, since `filter` and `count` branch at each place, by which the program takes 1.7 times as long.
    let changed = plane.iter().enumerate().fold(
        0u32,
        |n, (place, value)| n.wrapping_add(u32::from(*value != number_of(place))),
    );
    let placed = expected.as_chunks().0.iter().zip(&values).all(|(place, value)| plane.get(
        usize::from(u16::from_be_bytes(*place)),
    ) == Some(value));
    Some(changed == 64 && placed)
}
