//! The numbers that are drawn.
ghost use Rattle.std.specs.Prelude.{◌≡◌, ◌<◌};
ghost use Rattle.geo_model.specs.Generator.{next_draw, draw_value};

/// The number after this one.
pub fn next_draw(x: u64) -> u64
    requires { x < 2147483648 }
    ensures value { result ≡ next_draw x }
    ensures below { result < 2147483648 }
{
    (x * 1_103_515_245 + 12_345) % 2_147_483_648
}

/// What a draw gives: the bits above the lowest 16.
pub fn draw_value(x: u64) -> u64
    ensures { result ≡ draw_value x }
{
    x / 0x1_0000
}
