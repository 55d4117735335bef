ghost use Rattle.std.specs.Prelude.{◌≡◌};

use super::*;
use ws_base::FaultName;

/// `u(1:2,0:1)`, whose elements are u(1,0), u(2,0), u(1,1) and u(2,1).
const U: Shape = Shape {
    rank: 2,
    d1: Dim {
        lower: 1,
        extent: 2,
    },
    d2: Dim {
        lower: 0,
        extent: 2,
    },
    d3: Dim {
        lower: 1,
        extent: 1,
    },
};

fn subs(s1: i32, s2: i32) -> Subs
    ensures { result.rank ≡ 2 }
{
    Subs {
        rank: 2,
        s1,
        s2,
        s3: 1,
    }
}

#[test]
fn the_first_subscript_varies_fastest(rt: HostRuntime) {
    let shape = U;
    if !is_shape(&shape) {
        panic!(rt; "u is a shape");
    }
    assert_eq!(rt; size(&shape), 4);
    let second = subs(2, 0);
    assert_eq!(rt; place(&shape, &second), Some(1));
    assert_eq!(rt; place(&shape, &subs(1, 2)), None);
    assert_eq!(rt; subscripts_at(&shape, 2), subs(1, 1));
    assert_eq!(rt; next_subscripts(&shape, &second), Some(subs(1, 1)));
}

// `10:1:-3` is 10, 7, 4 and 1.
#[test]
fn a_triplet_steps_over_what_lies_between(rt: HostRuntime) {
    assert_eq!(rt; count(&Triplet { l: 10, u: 1, s: -3 }), Ok(4));
    assert_eq!(rt; count(&Triplet { l: 1, u: 10, s: 3 }), Ok(4));
    assert_eq!(rt; count(&Triplet { l: 2, u: 1, s: 1 }), Ok(0));
    assert_eq!(rt;
        count(&Triplet { l: 1, u: 2, s: 0 }),
        Err(FaultName::ZeroStride)
    );
}
