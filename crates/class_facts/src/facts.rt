ghost use Rattle.std.specs.Prelude.{◌≡◌, ◌++◌, ◌+◌, ◌<◌, ◌^◌, length, map, IfOk, OnOk, slice_get};
ghost use Rattle.schema_kinds.specs.Hierarchy.{top};
ghost use Rattle.class_facts.specs.Trees.{sort_above, supers_of};
ghost use Rattle.class_facts.specs.Facts.{count_from};

use crate::members::supers_named;
use crate::tables::system_sort_of;
use obj_kinds::{ClassName, NoMemory};
use schema_kinds::{ClassTree, Hierarchy, Sort};
use sqlite_items::Items;
use std::alloc::Global;

fn sort_from(supers: &[ClassName]) -> Sort
    ensures { result ≡ sort_above supers.now }
{
    match supers.split_first() {
        None => Sort::Plain,
        Some((first, _)) => match system_sort_of(first) {
            Some(sort) => sort,
            None => Sort::Plain,
        },
    }
}

/// The root above each class.
pub fn find_tops(
    alloc: Global,
    hierarchy: &Hierarchy,
    count: usize,
) -> Result<Items<usize>, NoMemory>
    requires { count < 2 ^ 63 }
    ensures { IfOk result (λ tops. tops ≡ map (λ i. top (length hierarchy.now.firsts) hierarchy.now.firsts i) (count_from 0 count)) }
{
    let mut tops = Items::new(alloc);
    for class in 0..count {
        tops.push(hierarchy.top(class))?;
    }
    Ok(tops)
}

/// The sort of each class: that which the first superclass of its root gives.
pub fn find_sorts(
    alloc: Global,
    trees: &[ClassTree],
    tops: &[usize],
) -> Result<Items<Sort>, NoMemory>
    ensures { IfOk result (λ sorts. sorts ≡ map (λ t. sort_above (supers_of (slice_get trees.now t))) tops.now) }
{
    let mut sorts = Items::new(alloc);
    for top in tops {
        sorts.push(sort_from(supers_named(trees, *top)))?;
    }
    Ok(sorts)
}
