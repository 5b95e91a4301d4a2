//! Whether a rule tree may be empty and whether it has steps: what comes in is a rule tree, and
//! what goes out are two answers. They don't depend on any number.

ghost use Rattle.std.specs.Prelude.{◌≡◌, ◌&&◌, ◌||◌, true};
ghost use Rattle.ts_rules.specs.Alternatives.{alternatives_of};
ghost use Rattle.ts_rules.specs.Numbers.{Numbers, tree_of};
ghost use Rattle.ts_numbering.specs.Shapes.{join_filled, joins_of, branches_of, IsShapeOf};

use ts_core::Rule;

/// What stands among the alternatives of a rule tree.
#[derive(Clone, Copy, Debug, PartialEq, Eq)]
pub struct Shape {
    /// Whether some alternative has no step.
    pub blank: bool,
    /// Whether some alternative has a step.
    pub filled: bool,
}

/// Of the empty alternative alone.
const BLANK: Shape = Shape {
    blank: true,
    filled: false,
};

/// Of no alternative.
const ABSENT: Shape = Shape {
    blank: false,
    filled: false,
};

/// Of alternatives with steps alone.
const STEP: Shape = Shape {
    blank: false,
    filled: true,
};

impl Shape {
    /// Of each of the first with each of the second.
    fn then(self, next: Shape) -> Shape
        ensures blank { result.blank ≡ self.blank && next.blank }
        ensures filled { result.filled ≡ join_filled self.blank self.filled next.blank next.filled }
    {
        Shape {
            blank: self.blank && next.blank,
            filled: self.filled && (next.blank || next.filled) || self.blank && next.filled,
        }
    }

    /// Of one list after the other.
    fn or(self, other: Shape) -> Shape
        ensures blank { result.blank ≡ self.blank || other.blank }
        ensures filled { result.filled ≡ self.filled || other.filled }
    {
        Shape {
            blank: self.blank || other.blank,
            filled: self.filled || other.filled,
        }
    }

    /// Of the same alternatives and the empty one.
    fn or_blank(self) -> Shape
        ensures blank { result.blank ≡ true }
        ensures filled { result.filled ≡ self.filled }
    {
        Shape {
            blank: true,
            filled: self.filled,
        }
    }
}

/// What stands among the alternatives of a rule tree, whatever the numbers and whatever stands
/// round the tree.
#[cycle(shape)]
pub fn shape_of(rule: &Rule) -> Shape
    ensures { (n : Numbers) → IsShapeOf (alternatives_of (tree_of n rule.now)) result }
{
    match rule {
        Rule::Blank => BLANK,
        Rule::Literal(_) => STEP,
        Rule::Pattern {
            value: _,
            ignore_case: _,
        } => STEP,
        Rule::Symbol(_) => STEP,
        Rule::Token(_) => STEP,
        Rule::ImmediateToken(_) => STEP,
        Rule::Seq(members) => joined_shape(members.as_slice()),
        Rule::Choice(members) => branched_shape(members.as_slice()),
        Rule::Repeat(content) => shape_of(content.get()).or_blank(),
        Rule::Repeat1(content) => shape_of(content.get()),
        Rule::Field { name: _, content } => shape_of(content.get()),
        Rule::Alias {
            content,
            named: _,
            value: _,
        } => shape_of(content.get()),
        Rule::Prec { value: _, content } => shape_of(content.get()),
        Rule::PrecLeft { value: _, content } => shape_of(content.get()),
        Rule::PrecRight { value: _, content } => shape_of(content.get()),
        Rule::PrecDynamic { value: _, content } => shape_of(content.get()),
    }
}

#[cycle(shape)]
fn joined_shape(members: &[Rule]) -> Shape
    ensures { (n : Numbers) → IsShapeOf (joins_of n members.now) result }
{
    let mut all = BLANK;
    let mut left = members.len();
    while left > 0 {
        left -= 1;
        all = shape_of(&members[left]).then(all);
    }
    all
}

#[cycle(shape)]
fn branched_shape(members: &[Rule]) -> Shape
    ensures { (n : Numbers) → IsShapeOf (branches_of n members.now) result }
{
    let mut all = ABSENT;
    let mut left = members.len();
    while left > 0 {
        left -= 1;
        all = shape_of(&members[left]).or(all);
    }
    all
}
