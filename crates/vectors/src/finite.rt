// Whether numbers are finite: neither NaN nor an infinity.
ghost use Rattle.std.specs.Prelude.{◌≡◌, Bool};
ghost use Rattle.vectors.specs.Finite.{is_finite, vec3_is_finite, vec4_is_finite, mat4_is_finite};

use crate::mat4::Mat4;
use crate::vec3::Vec3;
use crate::vec4::Vec4;

// A number, or what is made of numbers.
pub trait Finite: Copy {
    ghost finite: { Self → Bool };

    fn is_finite(self) -> bool
        ensures { result ≡ finite self };
}

impl Finite for f64 {
    ghost finite = { is_finite };

    // A finite number less itself is +0; an infinity less itself is NaN. Called as `Finite::is_finite(x)`, since
    // `x.is_finite()` is the library's test of an f64.
    fn is_finite(self) -> bool {
        self - self == 0.0
    }
}

impl Finite for Vec3 {
    ghost finite = { vec3_is_finite };

    #[tactic(auto, unfolding(crate::specs::Finite::vec3_is_finite))]
    fn is_finite(self) -> bool {
        Finite::is_finite(self.x) & Finite::is_finite(self.y) & Finite::is_finite(self.z)
    }
}

impl Finite for Vec4 {
    ghost finite = { vec4_is_finite };

    #[tactic(auto, unfolding(crate::specs::Finite::vec4_is_finite))]
    fn is_finite(self) -> bool {
        Finite::is_finite(self.x)
            & Finite::is_finite(self.y)
            & Finite::is_finite(self.z)
            & Finite::is_finite(self.w)
    }
}

impl Finite for Mat4 {
    ghost finite = { mat4_is_finite };

    #[tactic(auto, unfolding(crate::specs::Finite::mat4_is_finite))]
    fn is_finite(self) -> bool {
        self.c0.is_finite() & self.c1.is_finite() & self.c2.is_finite() & self.c3.is_finite()
    }
}
