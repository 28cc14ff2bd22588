// Elements of F as numbers: sums are exclusive or.
ghost use Rattle.std.specs.Prelude.{◌≡◌, ◌^◌, ◌<◌, ◌≤◌};
ghost use Rattle.field.specs.Ring.{Ring};
ghost use Rattle.field.specs.Binary.{binary};
ghost use Rattle.field.specs.Quotient.{times_x};
ghost use Rattle.field.specs.Level.{level_at, F};
ghost use Rattle.field.specs.Word.{digits, small, word};

use crate::Level;

// z times x, where z^width = z^tap + 1.
pub fn times_z(x: u16, level: usize) -> u16
    ensures { x < 2 ^ (level_at level).width → (result < 2 ^ (level_at level).width) × (digits (level_at level).width result ≡ times_x binary (level_at level).width (level_at level).tap (digits (level_at level).width x)) }
{
    let l = Level::of(level);
    let rule = (1u16 << l.width) + (1u16 << l.tap) + 1;
    (x << 1) ^ ((x >> (l.width - 1)) % 2 * rule)
}

// The product of two elements of F, by shift and add.
pub fn product(a: u16, b: u16, level: usize) -> u16
    ensures { a ≤ (level_at level).limit → b ≤ (level_at level).limit → result ≡ word (level_at level) ((F (level_at level)).mul (small (level_at level) a) (small (level_at level) b)) }
{
    let l = Level::of(level);
    let width = l.width;
    let mut z: u16 = 0;
    let mut y = b;
    for k in 0..width {
        z = z ^ (y & ((a >> k) % 2 * 0xffff));
        y = times_z(y, level);
    }
    z
}
