//! The Euler characteristic of a rotation.
ghost use Rattle.std.specs.Prelude.{◌≡◌, ◌≤◌, ◌^◌, length};
ghost use Rattle.pm_map.specs.Plane.{euler_characteristic, vertices, faces};
ghost use Rattle.pm_map.specs.Rotation.{structure_of};

/// Vertices less edges plus faces, where the numbers of vertices and faces are known.
pub(crate) fn euler_characteristic(sigma: &[u32], vertex_count: u32, face_count: u32) -> i64
    requires few { length sigma.now ≤ 2 ^ 31 }
    requires vertices { vertex_count ≡ vertices (structure_of (record { sigma = sigma.now; root = 0 })) }
    requires faces { face_count ≡ faces (structure_of (record { sigma = sigma.now; root = 0 })) }
    ensures { result ≡ euler_characteristic (structure_of (record { sigma = sigma.now; root = 0 })) }
{
    vertex_count as i64 + face_count as i64 - (sigma.len() / 2) as i64
}
