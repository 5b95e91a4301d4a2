//! The parts of a number: the last part that was read and the class of the next byte go in; the
//! part with that byte comes out, or that the number does not go on with it.

ghost use Rattle.std.specs.Prelude.{◌≡◌};
ghost use Rattle.ts_ojson.specs.Machine.{part_next, part_ends, whole_next, digit_next, is_digit_class};

use crate::class::Class;

/// The last part of a number that was read.
#[derive(Clone, Copy, PartialEq, Eq, Debug)]
pub(crate) enum Part {
    Minus,
    Zero,
    Whole,
    Point,
    Fraction,
    Exponent,
    Sign,
    Power,
}

impl Part {
    /// The part after one more byte, where the number goes on with it.
    pub(crate) fn next(self, class: Class) -> Option<Part>
        ensures { result ≡ part_next self class }
    {
        match self {
            Part::Minus if class == Class::Zero => Some(Part::Zero),
            Part::Minus => digit(class, Part::Whole),
            Part::Whole if is_digit(class) => Some(Part::Whole),
            Part::Zero | Part::Whole => after_whole(class),
            Part::Fraction if class == Class::Exponent => Some(Part::Exponent),
            Part::Point | Part::Fraction => digit(class, Part::Fraction),
            Part::Exponent if class == Class::Plus || class == Class::Minus => Some(Part::Sign),
            Part::Exponent | Part::Sign | Part::Power => digit(class, Part::Power),
        }
    }

    /// Whether a number may end here.
    pub(crate) fn may_end(self) -> bool
        ensures { result ≡ part_ends self }
    {
        match self {
            Part::Zero | Part::Whole | Part::Fraction | Part::Power => true,
            Part::Minus | Part::Point | Part::Exponent | Part::Sign => false,
        }
    }
}

fn is_digit(class: Class) -> bool
    ensures { result ≡ is_digit_class class }
{
    class == Class::Zero || class == Class::Digit
}

fn after_whole(class: Class) -> Option<Part>
    ensures { result ≡ whole_next class }
{
    if class == Class::Point {
        Some(Part::Point)
    } else if class == Class::Exponent {
        Some(Part::Exponent)
    } else {
        None
    }
}

fn digit(class: Class, part: Part) -> Option<Part>
    ensures { result ≡ digit_next class part }
{
    if is_digit(class) { Some(part) } else { None }
}
