ghost use Rattle.std.specs.Prelude.{◌≡◌, ℕ, ◌<◌, ◌≤◌, ◌++◌, length, replicate, slice_set, IfOk, OnOk, IsTrue, true, false};
ghost use Rattle.schema_kinds.specs.Links.{AreWithin, IsWithin, AreAbove, row, mark_at, mark_all, fresh, news, marked};

use obj_kinds::NoMemory;
use sqlite_items::Items;
use std::alloc::Global;

/// For each place of a list the places that it leads to.
pub type Links = Items<Items<usize>>;

/// Whether each place of a list is marked.
pub type Marks = Items<bool>;

fn one_mark(alloc: Global, len: usize, place: usize) -> Result<Marks, NoMemory>
    requires { place < len }
    ensures { IfOk result (λ marks. marks ≡ slice_set (replicate len false) place true) }
{
    let mut marks = Items::from_vec(vec![in alloc; false; len]?);
    marks.set(place, true);
    Ok(marks)
}

/// Whether a place is marked.
pub fn is_marked(marks: &[bool], place: usize) -> bool
    ensures { result ≡ mark_at marks.now place }
{
    match marks.get(place) {
        Some(mark) => *mark,
        None => false,
    }
}

/// How many places are marked.
pub fn count_marked(marks: &[bool]) -> usize
    ensures value { result ≡ marked marks.now }
    ensures bound { result ≤ length marks.now }
{
    let mut count = 0;
    for mark in marks {
        if *mark {
            count += 1;
        }
    }
    count
}

fn mark_link(link: usize, marks: &mut Marks, ahead: &mut Items<usize>) -> Result<(), NoMemory>
    requires { link < length marks.old }
    ensures marks { OnOk result (marks.new ≡ slice_set marks.old link true) }
    ensures ahead { OnOk result (ahead.new ≡ ahead.old ++ fresh marks.old link) }
{
    if !is_marked(marks.as_slice(), link) {
        ahead.push(link)?;
    }
    marks.set(link, true);
    Ok(())
}

fn mark_row(row: &[usize], marks: &mut Marks, ahead: &mut Items<usize>) -> Result<(), NoMemory>
    requires { IsWithin row.now (length marks.old) }
    ensures marks { OnOk result (marks.new ≡ mark_all row.now marks.old) }
    ensures ahead { OnOk result (ahead.new ≡ ahead.old ++ news row.now marks.old) }
{
    for link in row {
        mark_link(*link, marks, ahead)?;
    }
    Ok(())
}

fn row_at(links: &[Items<usize>], place: usize) -> &[usize]
    ensures { result.now ≡ row links.now place }
{
    match links.get(place) {
        Some(row) => row.as_slice(),
        None => &[],
    }
}

/// Marks what is at or above one place. Each place that is marked is looked at once.
pub fn marks_above(alloc: Global, links: &[Items<usize>], start: usize) -> Result<Marks, NoMemory>
    requires start { start < length links.now }
    requires within { AreWithin links.now (length links.now) }
    ensures { IfOk result (AreAbove links.now start) }
{
    let mut marks = one_mark(alloc, links.len(), start)?;
    let mut ahead = Items::new(alloc);
    ahead.push(start)?;
    while let Some(place) = ahead.pop() {
        mark_row(row_at(links, place), &mut marks, &mut ahead)?;
    }
    Ok(marks)
}
