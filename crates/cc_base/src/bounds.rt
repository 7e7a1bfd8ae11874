//! The bounds within which a function is tested.

ghost use Rattle.std.specs.Prelude.{◌≡◌, IfSome, IfNone};
ghost use Rattle.cc_base.specs.Limits.{Limits, InRange, base_of};

use std::marker::Model;

/// The bounds of a session: the range of the input's numbers, the events, input objects and steps of a run.
///
/// The ranges are this project's own: `lo` at most `hi`, depth 1 to 1,024, objects 1 to 25, steps 1 to 1,000,000.
#[derive(Clone, Copy, Debug)]
pub struct Bounds {
    lo: i32,
    hi: i32,
    depth: u32,
    objects: u8,
    steps: u32,
}

impl Model for Bounds {
    ghost use Rattle.cc_base.specs.Limits.{Limits, InRange, limits_code};

    ghost Value = { Limits };

    ghost coded = { limits_code };

    ghost view = { λ b. record { lo = b.lo; hi = b.hi; depth = b.depth; objects = b.objects; steps = b.steps } };

    ghost invariant = { λ b. InRange (record {
      lo = b.lo;
      hi = b.hi;
      depth = b.depth;
      objects = b.objects;
      steps = b.steps;
    }) };

    ghost inverse = { λ v. record { lo = v.lo; hi = v.hi; depth = v.depth; objects = v.objects; steps = v.steps } };
}

impl Bounds {
    /// The bounds with these numbers; None exactly where `lo` is above `hi` or a number is outside its range.
    pub fn new(lo: i32, hi: i32, depth: u32, objects: u8, steps: u32) -> Option<Bounds>
        ensures some { IfSome result (λ b. b
            ≡ record { lo = lo; hi = hi; depth = depth; objects = objects; steps = steps }) }
        ensures in_range { IfSome result InRange }
        ensures none { IfNone result (InRange
            (record { lo = lo; hi = hi; depth = depth; objects = objects; steps = steps }) → ⊥) }
    {
        let fits = lo <= hi
            && depth >= 1
            && depth <= 1024
            && objects >= 1
            && objects <= 25
            && steps >= 1
            && steps <= 1_000_000;
        if fits {
            Some(Bounds {
                lo,
                hi,
                depth,
                objects,
                steps,
            })
        } else {
            None
        }
    }

    /// The least number of an input.
    pub fn lo(&self) -> i32
        ensures value { result ≡ (self.now).lo }
        ensures in_range { InRange self.now }
    {
        self.lo
    }

    /// The greatest number of an input.
    pub fn hi(&self) -> i32
        ensures value { result ≡ (self.now).hi }
        ensures in_range { InRange self.now }
    {
        self.hi
    }

    /// How many events a run may have.
    pub fn depth(&self) -> u32
        ensures value { result ≡ (self.now).depth }
        ensures in_range { InRange self.now }
    {
        self.depth
    }

    /// How many input objects a run may access.
    pub fn objects(&self) -> u8
        ensures value { result ≡ (self.now).objects }
        ensures in_range { InRange self.now }
    {
        self.objects
    }

    /// How many steps a run may take.
    pub fn steps(&self) -> u32
        ensures value { result ≡ (self.now).steps }
        ensures in_range { InRange self.now }
    {
        self.steps
    }

    /// The number of least absolute value in `lo..hi`: what an input has where nothing asks for another number.
    pub fn base(&self) -> i32
        ensures { result ≡ base_of self.now }
    {
        if self.lo > 0 {
            self.lo
        } else if self.hi < 0 {
            self.hi
        } else {
            0
        }
    }
}
