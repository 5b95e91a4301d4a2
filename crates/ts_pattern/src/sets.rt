//! Sets: from items to the ranges of their characters.
ghost use Rattle.std.specs.Prelude.{◌≡◌, true, IfOk};
ghost use Rattle.regex_class.specs.Ranges.{HasExactly};
ghost use Rattle.ts_pattern.specs.Sets.{InItem, InSet, InUnion, AreRangesOf, in_base};
ghost use Rattle.ts_pattern.specs.Classify.{Have, in_folded, in_inverted, in_characters};

use crate::item::{Base, CharSet, Item};
use regex_class::{Class, ClassRange, MAX};
use std::alloc::{AllocError, Global};
use ts_base::List;
use unicode::case::fold_pairs;

const DIGITS: [ClassRange; 1] = [(48, 57)];

const WORDS: [ClassRange; 4] = [(48, 57), (65, 90), (95, 95), (97, 122)];

const SPACES: [ClassRange; 2] = [(9, 13), (32, 32)];

const SURROGATES: ClassRange = (0xD800, 0xDFFF);

fn base_ranges(alloc: Global, base: Base) -> Result<Vec<ClassRange>, AllocError>
    ensures { IfOk result (λ v. Have v.items (λ c. in_base base c ≡ true)) }
{
    match base {
        Base::Range(first, last) => Vec::from_slice(alloc, &[(first, last)]),
        Base::Digit => Vec::from_slice(alloc, &DIGITS),
        Base::Word => Vec::from_slice(alloc, &WORDS),
        Base::Space => Vec::from_slice(alloc, &SPACES),
        Base::Property(set) => set.ranges(alloc),
    }
}

/// The class with all characters that share a simple folding with a member.
fn with_folds(class: &Class) -> Result<Class, AllocError>
    ensures { IfOk result (λ r. HasExactly r.ranges.items (in_folded true class.now.ranges.items)) }
{
    let mut ranges = Vec::from_slice(*class.ranges.allocator(), &class.ranges)?;
    class.append_image(fold_pairs(), &mut ranges)?;
    Class::new(ranges)
}

/// The class, with the flag also all that fold like its members.
fn folded(class: Class, ignore_case: bool) -> Result<Class, AllocError>
    ensures { IfOk result
        (λ r. HasExactly r.ranges.items (in_folded ignore_case class.ranges.items)) }
{
    if ignore_case {
        with_folds(&class)
    } else {
        Ok(class)
    }
}

/// The class, or with the flag all other codes.
fn inverted(class: Class, is_inverted: bool) -> Result<Class, AllocError>
    ensures { IfOk result
        (λ r. HasExactly r.ranges.items (in_inverted is_inverted class.ranges.items)) }
{
    if is_inverted {
        class.negate(MAX)
    } else {
        Ok(class)
    }
}

/// The class without surrogates.
fn characters(class: Class) -> Result<Class, AllocError>
    ensures { IfOk result (λ r. HasExactly r.ranges.items (in_characters class.ranges.items)) }
{
    let surrogates = Class::from_ranges(*class.ranges.allocator(), &[SURROGATES])?;
    class.difference(&surrogates)
}

/// The ranges of an item, in any order.
fn item_ranges(alloc: Global, item: Item, ignore_case: bool) -> Result<Vec<ClassRange>, AllocError>
    ensures { IfOk result (λ v. Have v.items (λ c. InItem ignore_case c item)) }
{
    let ranges = base_ranges(alloc, item.base)?;
    if !item.lacking {
        return Ok(ranges);
    }
    let others = inverted(folded(Class::new(ranges)?, ignore_case)?, true)?;
    Vec::from_slice(alloc, &others.ranges)
}

/// The ranges of all items, in any order.
fn all_ranges(
    alloc: Global,
    items: &[Item],
    ignore_case: bool,
) -> Result<Vec<ClassRange>, AllocError>
    ensures { IfOk result (λ v. Have v.items (InUnion ignore_case items.now)) }
{
    let mut all = Vec::new(alloc);
    'items: for i in 0..items.len() {
        let ranges = item_ranges(alloc, items[i], ignore_case)?;
        all.extend_from_slice(&ranges)?;
    }
    Ok(all)
}

/// The ranges of a set's characters: they rise, and neither meet nor touch.
pub(crate) fn ranges(
    alloc: Global,
    set: &CharSet,
    ignore_case: bool,
) -> Result<List<ClassRange>, AllocError>
    ensures { IfOk result (λ r. AreRangesOf r (InSet ignore_case set.now)) }
{
    let all = all_ranges(alloc, set.items.as_slice(), ignore_case)?;
    let class = folded(Class::new(all)?, ignore_case)?;
    let class = inverted(class, set.inverted)?;
    let Class { ranges } = characters(class)?;
    Ok(List::from_vec(ranges))
}
