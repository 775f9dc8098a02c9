// The five addresses of a new child, tested as one group and made into its descriptor.
ghost use Rattle.std.specs.Prelude.{◌≡◌};
ghost use Rattle.walk.specs.Finite.{any};
ghost use Rattle.rules.specs.Conditions;
ghost use Rattle.rules.specs.Conditions.{not_in_hand, lacks};
ghost use Rattle.making.specs.Group.{descriptor};

use pages::{IndexWidth, PhysicalPage};

// 4: "two of the five equal". Each is compared with each that stands behind it.
pub fn twice(vs: &[u32]) -> bool
    ensures { result ≡ Conditions.twice vs.now }
{
    for (i, v) in vs.iter().enumerate() {
        if vs[i + 1..].contains(v) {
            return true;
        }
    }
    false
}

// 7, over all the addresses vs.
pub fn any_not_in_hand(b: IndexWidth, m: &[u32], vs: &[u32]) -> bool
    ensures { result ≡ any (not_in_hand b.bits m.now) vs.now }
{
    vs.iter().any(|v| moves::not_in_hand(b, m, *v))
}

// 6, of the rights r over all the addresses vs.
pub fn any_lacks(b: IndexWidth, r: u32, m: &[u32], vs: &[u32]) -> bool
    ensures { result ≡ any (lacks b.bits r m.now) vs.now }
{
    vs.iter().any(|v| moves::lacks(b, r, m, *v))
}

// The twelve words of the descriptor of a new child of d, whose own address is own.
pub fn descriptor_words(
    b: IndexWidth,
    m: &[u32],
    d: PhysicalPage,
    own: u32,
    five: [u32; 5],
) -> [u32; 12]
    ensures { result ≡ descriptor b.bits m.now d.0 own five }
{
    let a0 = moves::frame_at(b, m, d, five[0]);
    let a1 = moves::frame_at(b, m, d, five[1]);
    let a2 = moves::frame_at(b, m, d, five[2]);
    let a3 = moves::frame_at(b, m, d, five[3]);
    let a4 = moves::frame_at(b, m, d, five[4]);
    [
        five[0], a0, five[1], a1, five[2], a2, five[3], a3, five[4], a4, 0, own,
    ]
}
