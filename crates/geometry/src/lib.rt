//! Points of the plane and their arithmetic in binary32, as the Rust's Vec2 has it: by component.
//! Every operation is rounded once, in the order written.

#![tactic(auto)]

ghost use Rattle.std.specs.Prelude.{◌≡◌, ◌+◌, ◌≤◌, length};
ghost use Rattle.geometry.specs.Point.{add_of, sub_of, mul_of, div_of, scale_of, shrink_of, neg_of, abs_point, finite_point, length_squared_of, distance_squared_of, length_of, normalize_of, point_at};

use std::ops::{Add, Div, Mul, Neg, Sub};
use std::simd::prelude::*;

/// A point, or a vector from one point to another.
#[derive(Clone, Copy, Debug, PartialEq)]
pub struct Point {
    pub x: f32,
    pub y: f32,
}

impl Add for Point {
    type Output = Point;

    ghost add_gives = { λ p q r. r ≡ add_of p q };

    #[tactic(auto, unfolding(crate::specs::Point::add_of))]
    fn add(self, q: Point) -> Point {
        Point {
            x: self.x + q.x,
            y: self.y + q.y,
        }
    }
}

impl Sub for Point {
    type Output = Point;

    ghost sub_gives = { λ p q r. r ≡ sub_of p q };

    #[tactic(auto, unfolding(crate::specs::Point::sub_of))]
    fn sub(self, q: Point) -> Point {
        Point {
            x: self.x - q.x,
            y: self.y - q.y,
        }
    }
}

impl Mul for Point {
    type Output = Point;

    ghost mul_gives = { λ p q r. r ≡ mul_of p q };

    #[tactic(auto, unfolding(crate::specs::Point::mul_of))]
    fn mul(self, q: Point) -> Point {
        Point {
            x: self.x * q.x,
            y: self.y * q.y,
        }
    }
}

impl Div for Point {
    type Output = Point;

    ghost div_gives = { λ p q r. r ≡ div_of p q };

    #[tactic(auto, unfolding(crate::specs::Point::div_of))]
    fn div(self, q: Point) -> Point {
        Point {
            x: self.x / q.x,
            y: self.y / q.y,
        }
    }
}

impl Mul<f32> for Point {
    type Output = Point;

    ghost mul_gives = { λ p k r. r ≡ scale_of p k };

    #[tactic(auto, unfolding(crate::specs::Point::scale_of))]
    fn mul(self, k: f32) -> Point {
        Point {
            x: self.x * k,
            y: self.y * k,
        }
    }
}

// A division of each component, never a product with a reciprocal.
impl Div<f32> for Point {
    type Output = Point;

    ghost div_gives = { λ p k r. r ≡ shrink_of p k };

    #[tactic(auto, unfolding(crate::specs::Point::shrink_of))]
    fn div(self, k: f32) -> Point {
        Point {
            x: self.x / k,
            y: self.y / k,
        }
    }
}

impl Neg for Point {
    type Output = Point;

    ghost neg_gives = { λ p r. r ≡ neg_of p };

    #[tactic(auto, unfolding(crate::specs::Point::neg_of))]
    fn neg(self) -> Point {
        Point {
            x: -self.x,
            y: -self.y,
        }
    }
}

impl Point {
    /// The magnitude of each coordinate: v where it is above 0, else 0 - v, of both in one vector. A NaN is not set
    /// apart, and the comparison does not wait for the difference.
    pub fn abs(self) -> Point
        ensures { result ≡ abs_point self }
    {
        let v = f32x2::from_array([self.x, self.y]);
        let zero = f32x2::splat(0.0);
        let [x, y] = zero.simd_lt(v).select(v, zero - v).to_array();
        Point { x, y }
    }

    /// Whether neither coordinate is infinite or a NaN.
    #[tactic(auto, unfolding(crate::specs::Point::finite_point))]
    pub fn is_finite(self) -> bool
        ensures { result ≡ finite_point self }
    {
        ieee::is_finite(self.x) && ieee::is_finite(self.y)
    }

    /// x * x + y * y.
    #[tactic(auto, unfolding(crate::specs::Point::length_squared_of))]
    pub fn length_squared(self) -> f32
        ensures { result ≡ length_squared_of self }
    {
        self.x * self.x + self.y * self.y
    }

    /// The squared length of the vector from q.
    #[tactic(auto, unfolding(crate::specs::Point::distance_squared_of))]
    pub fn distance_squared(self, q: Point) -> f32
        ensures { result ≡ distance_squared_of self q }
    {
        (self - q).length_squared()
    }

    /// The root of the squared length.
    #[tactic(auto, unfolding(crate::specs::Point::length_of))]
    pub fn length(self) -> f32
        ensures { result ≡ length_of self }
    {
        ieee::sqrt(self.length_squared())
    }

    /// The vector of length 1 in the same direction: the length's reciprocal first, then a product.
    #[tactic(auto, unfolding(crate::specs::Point::normalize_of))]
    pub fn normalize(self) -> Point
        ensures { result ≡ normalize_of self }
    {
        self * (1.0 / self.length())
    }
}

/// The point whose x and y stand at `at` and behind it.
pub fn point_at(floats: &[f32], at: usize) -> Point
    requires { at + 2 ≤ length floats.now }
    ensures { result ≡ point_at floats.now at }
{
    Point {
        x: floats[at],
        y: floats[at + 1],
    }
}
