ghost use Rattle.std.specs.Prelude.{◌≡◌, ◌/◌, ◌%◌, ◌<◌, ◌∷◌, length, slice_index_or};
ghost use Rattle.std.specs.List.{remove};
ghost use Rattle.ranking.specs.Draws.{Drawn};

use super::key::Key;

/// Brings the key at `i` to the front; those before it move up by one.
fn to_front(keys: &mut [Key], i: usize)
    requires { i < length keys.old }
    ensures { (d : Key) → keys.new ≡ slice_index_or keys.old i d ∷ remove keys.old i }
{
    keys[0..i + 1].rotate_right(1);
}

/// With m keys left, brings the one at draw mod m to the front, and gives draw div m, the draw for those behind it.
fn take_drawn(keys: &mut [Key], draw: u64) -> u64
    requires { 0 < length keys.old }
    ensures value { result ≡ draw / length keys.old }
    ensures after { (d : Key) → keys.new ≡ slice_index_or keys.old (draw % length keys.old) d ∷ remove keys.old (draw % length keys.old) }
{
    let left = keys.len() as u64;
    to_front(keys, (draw % left) as usize);
    draw / left
}

/// Takes the keys in the order of the draw.
pub(crate) fn draw_order(keys: &mut [Key], draw: u64)
    ensures { Drawn draw keys.old keys.new }
{
    let mut d = draw;
    // By place, since each turn takes from all keys that are left from its place on.
    for t in 0..keys.len() {
        d = take_drawn(&mut keys[t..], d);
    }
}
