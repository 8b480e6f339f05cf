ghost use Rattle.std.specs.Prelude.{◌≡◌, Bool, true, ℤ};
ghost use Rattle.std.specs.Float.{binary64};
ghost use Rattle.std.specs.Float.Ieee.{in_signed, to_signed};

// A number that an axis keeps its positions in: every `i32` goes in and comes out as it went.
pub trait Coordinate: Copy {
    // Whether the number is a position.
    ghost valid: { Self → Bool };

    // The position that the number is.
    ghost whole: { Self → ℤ };

    fn exact(position: i32) -> Self
        ensures valid { valid result ≡ true }
        ensures value { whole result ≡ position };

    fn to_whole(self) -> i32
        requires { valid self ≡ true }
        ensures { result ≡ whole self };
}

impl Coordinate for i32 {
    ghost valid = { λ z. true };

    ghost whole = { λ z. z };

    fn exact(position: i32) -> i32 {
        position
    }

    fn to_whole(self) -> i32 {
        self
    }
}

impl Coordinate for f64 {
    ghost valid = { λ x. in_signed binary64 31 x };

    ghost whole = { λ x. to_signed 31 x };

    #[tactic(auto, using(crate::proofs::Floats::there, crate::proofs::Floats::back))]
    fn exact(position: i32) -> f64 {
        position as f64
    }

    #[tactic(auto, using(crate::proofs::Floats::cut))]
    fn to_whole(self) -> i32 {
        self as i32
    }
}
