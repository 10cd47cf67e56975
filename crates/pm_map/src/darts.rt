ghost use Rattle.std.specs.Prelude.{◌≡◌};
ghost use Rattle.pm_map.specs.Rotation.{twin};

/// The other dart of the edge: `2k + 1` for `2k`, and `2k` for `2k + 1`.
pub fn twin_of(dart: u32) -> u32
    ensures { result ≡ twin dart }
{
    if dart % 2 == 0 { dart + 1 } else { dart - 1 }
}
